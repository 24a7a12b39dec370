ghost use Rattle.std.specs.Prelude.{◌≡◌, ◌<◌, ◌++◌, ◌∷◌, [], List, ℕ, map, string_bytes, length, count_by, All, IfOk, IfErr, OnOk};
ghost use Rattle.serde_json.specs.Written.{compact_text};
ghost use Rattle.template_core.specs.Constraints.{IsWellMadeFor};
ghost use Rattle.model_json.specs.Report.{is_tested, trace_value};
ghost use Rattle.report_text.specs.Fields.{quoted, column};
ghost use Rattle.report_text.specs.ModelTable.{score_text, scored_text, scores_table_text, consistent_table_text, model_table_text};

use crate::fields::{put_column, put_constraint, quote_all};
use decl_base::{Frac, Refusal, Trace};
use event_log::Alphabet;
use model_json::{is_tested, staying, trace_value};
use reduce_model::{Decision, Reduced, Sifted};
use scoring::Scored;
use std::alloc::{AllocError, Global};

/// The width of a score's column.
const WIDTH: usize = 12;

const HEADING: &str = "     support   confidence     interest constraint\n";

/// What stands for the witness of an untested constraint, to the end of the line.
const UNTESTED: &str = " -\n";

/// The table of all candidates with their scores, over names in byte order.
pub fn scores_table(alloc: Global, names: &Alphabet, list: &[Scored]) -> Result<Vec<u8>, Refusal>
    requires { All (λ scored. IsWellMadeFor (length names.now.names) scored.constraint) list.now }
    ensures ok { IfOk result (λ text. text.items ≡ scores_table_text names.now.names list.now) }
    ensures err { IfErr result (λ e. e ≡ Refusal.Memory) }
{
    let texts = quote_all(alloc, names)?;
    let mut out = Vec::new(alloc);
    out.extend_from_slice(HEADING.as_bytes())?;
    for scored in list {
        put_scored(alloc, &mut out, &texts, scored)?;
        out.push(b'\n')?;
    }
    Ok(out)
}

/// The table of the candidates with conflicts removed, over names in byte order: those that stay.
pub fn consistent_table(
    alloc: Global,
    names: &Alphabet,
    list: &[Scored],
    sifted: &Sifted,
) -> Result<Vec<u8>, Refusal>
    requires made { All (λ scored. IsWellMadeFor (length names.now.names) scored.constraint) list.now }
    requires decisions { length sifted.now.decisions ≡ length list.now }
    ensures ok { IfOk result (λ text. text.items ≡ consistent_table_text names.now.names list.now sifted.now.decisions) }
    ensures err { IfErr result (λ e. e ≡ Refusal.Memory) }
{
    let kept = staying(alloc, list, sifted.decisions())?;
    scores_table(alloc, names, &kept)
}

/// The table of the reduced candidates, over names in byte order: those that stay, each with its witness or untested.
pub fn model_table(
    alloc: Global,
    names: &Alphabet,
    list: &[Scored],
    reduced: &Reduced,
) -> Result<Vec<u8>, Refusal>
    requires made { All (λ scored. IsWellMadeFor (length names.now.names) scored.constraint) list.now }
    requires decisions { length reduced.now.decisions ≡ length list.now }
    requires witnesses { length reduced.now.witnesses ≡ count_by is_tested reduced.now.decisions }
    requires witness { All (λ trace. All (λ rank. rank < length names.now.names) trace) reduced.now.witnesses }
    ensures ok { IfOk result (λ text. text.items
        ≡ model_table_text names.now.names list.now reduced.now.decisions reduced.now.witnesses) }
    ensures err { IfErr result (λ e. e ≡ Refusal.Memory) }
{
    let witnesses = reduced.witnesses();
    Ok(listed_table(alloc, names, list, reduced.decisions(), witnesses)?)
}

/// The table of the candidates that stay, each with its witness or untested.
pub(crate) fn listed_table(
    alloc: Global,
    names: &Alphabet,
    list: &[Scored],
    decisions: &[Decision],
    witnesses: &[Trace],
) -> Result<Vec<u8>, AllocError>
    requires made { All (λ scored. IsWellMadeFor (length names.now.names) scored.constraint) list.now }
    requires decisions { length decisions.now ≡ length list.now }
    requires witnesses { length witnesses.now ≡ count_by is_tested decisions.now }
    requires witness { All (λ trace. All (λ rank. rank < length names.now.names) trace) witnesses.now }
    ensures { IfOk result (λ text. text.items ≡ model_table_text names.now.names list.now decisions.now witnesses.now) }
{
    let texts = quote_all(alloc, names)?;
    let mut out = Vec::new(alloc);
    out.extend_from_slice(HEADING.as_bytes())?;
    let mut next = 0;
    for (place, scored) in list.iter().enumerate() {
        let decision = decisions[place];
        if decision.is_kept() {
            put_scored(alloc, &mut out, &texts, scored)?;
            if is_tested(decision) {
                put_witness(alloc, &mut out, names, &witnesses[next])?;
                next += 1;
            } else {
                out.extend_from_slice(UNTESTED.as_bytes())?;
            }
        }
    }
    Ok(out)
}

/// The three scores of a constraint, and the constraint.
fn put_scored(
    alloc: Global,
    out: &mut Vec<u8>,
    texts: &[String],
    scored: &Scored,
) -> Result<(), AllocError>
    requires { IsWellMadeFor (length texts.now) scored.now.constraint }
    ensures { OnOk result ((names : List (List ℕ)) → map string_bytes texts.now ≡ map quoted names
        → out.new.items ≡ out.old.items ++ scored_text names scored.now) }
{
    put_score(alloc, out, &scored.support)?;
    put_score(alloc, out, &scored.confidence)?;
    put_score(alloc, out, &scored.interest)?;
    put_constraint(out, texts, &scored.constraint)?;
    Ok(())
}

/// A score right in its column, and a space.
fn put_score(alloc: Global, out: &mut Vec<u8>, score: &Frac) -> Result<(), AllocError>
    ensures { OnOk result (out.new.items ≡ out.old.items ++ column 12 (score_text score.now)) }
{
    let text = format!(in alloc; "{}/{}", score.num(), score.den())?;
    put_column(out, WIDTH, text.as_bytes())
}

/// A space, the names of a trace as a JSON list, and the end of the line.
fn put_witness(
    alloc: Global,
    out: &mut Vec<u8>,
    names: &Alphabet,
    witness: &Trace,
) -> Result<(), AllocError>
    requires { All (λ rank. rank < length names.now.names) witness.now }
    ensures { OnOk result (out.new.items ≡ out.old.items ++ (32 ∷ [] ++ compact_text (trace_value names.now.names witness.now) ++ 10 ∷ [])) }
{
    let text = trace_value(alloc, names, witness)?.to_string(alloc)?;
    out.push(b' ')?;
    out.extend_from_slice(text.as_bytes())?;
    out.push(b'\n')?;
    Ok(())
}
