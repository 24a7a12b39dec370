ghost use Rattle.std.specs.Prelude.{◌≡◌, ◌<◌, length, true, All, IfOk, IfErr};
ghost use Rattle.model_json.specs.Model.{AreOf};
ghost use Rattle.template_core.specs.Constraints.{IsWellMadeFor};
ghost use Rattle.minerful_core.specs.Outcome.{IsVerifiedText, certificate_text, scores_text, consistent_text, model_text};
ghost use Rattle.minerful_core.specs.Writing.{CanWrite};

use chain_cert::{Chain, Verdict, verify};
use decl_base::Refusal;
use event_log::Alphabet;
use minerful_words::{Out, Settings};
use model_json::{
    certificate_value, consistent_value, read_certificate, report_value, scores_value, text_of,
};
use reduce_model::{Reduced, Sifted};
use report_text::{consistent_table, model_table, scores_table};
use scoring::Scored;
use std::alloc::Global;

/// Candidates at stage `scores`, over names in byte order, as JSON or as table, as the settings say.
pub(crate) fn write_scores(
    alloc: Global,
    settings: &Settings,
    names: &Alphabet,
    list: &[Scored],
    traces: u64,
    events: u64,
) -> Result<Vec<u8>, Refusal>
    requires made { All (λ scored. IsWellMadeFor (length names.now.names) scored.constraint) list.now }
    requires repertoire { AreOf settings.now.repertoire list.now }
    ensures text { IfOk result (λ text. text.items ≡ scores_text settings.now.out settings.now.repertoire list.now names.now.names traces events) }
    ensures err { IfErr result (λ e. e ≡ Refusal.Memory) }
{
    match settings.out {
        Out::Json | Out::Cert => {
            let value = scores_value(alloc, names, settings.repertoire, list, traces, events)?;
            text_of(alloc, &value)
        }
        Out::Table => scores_table(alloc, names, list),
    }
}

/// Candidates at stage `consistent`, over names in byte order, as JSON or as table, as the settings say.
pub(crate) fn write_consistent(
    alloc: Global,
    settings: &Settings,
    names: &Alphabet,
    list: &[Scored],
    sifted: &Sifted,
    traces: u64,
    events: u64,
) -> Result<Vec<u8>, Refusal>
    requires made { All (λ scored. IsWellMadeFor (length names.now.names) scored.constraint) list.now }
    requires repertoire { AreOf settings.now.repertoire list.now }
    requires decisions { length sifted.now.decisions ≡ length list.now }
    requires example { All (λ rank. rank < length names.now.names) sifted.now.example }
    ensures text { IfOk result (λ text. text.items
        ≡ consistent_text settings.now.out settings.now.repertoire list.now sifted.now names.now.names traces events) }
    ensures err { IfErr result (λ e. e ≡ Refusal.Memory) }
{
    match settings.out {
        Out::Json | Out::Cert => {
            let value = consistent_value(
                alloc,
                names,
                settings.repertoire,
                list,
                sifted,
                traces,
                events,
            )?;
            text_of(alloc, &value)
        }
        Out::Table => consistent_table(alloc, names, list, sifted),
    }
}

/// Candidates at stage `model`, over names in byte order, as JSON or as table, as the settings say.
pub(crate) fn write_model(
    alloc: Global,
    settings: &Settings,
    names: &Alphabet,
    list: &[Scored],
    reduced: &Reduced,
    traces: u64,
    events: u64,
) -> Result<Vec<u8>, Refusal>
    requires made { All (λ scored. IsWellMadeFor (length names.now.names) scored.constraint) list.now }
    requires repertoire { AreOf settings.now.repertoire list.now }
    requires reduced { CanWrite (length names.now.names) list.now reduced.now }
    ensures text { IfOk result (λ text. text.items ≡ model_text settings.now.out settings.now.repertoire list.now reduced.now names.now.names traces events) }
    ensures err { IfErr result (λ e. e ≡ Refusal.Memory) }
{
    match settings.out {
        Out::Json | Out::Cert => {
            let value = report_value(
                alloc,
                names,
                settings.repertoire,
                list,
                reduced,
                traces,
                events,
            )?;
            text_of(alloc, &value)
        }
        Out::Table => model_table(alloc, names, list, reduced),
    }
}

/// The certificate of candidates at stage `model`, over names in byte order. It is read back and verified before it is handed on:
/// a text that isn't a certificate whose verdict is yes is none, and is answered as `Memory`.
pub(crate) fn write_certificate(
    alloc: Global,
    settings: &Settings,
    names: &Alphabet,
    list: &[Scored],
    reduced: &Reduced,
    chain: &Chain,
    traces: u64,
    events: u64,
) -> Result<Vec<u8>, Refusal>
    requires made { All (λ scored. IsWellMadeFor (length names.now.names) scored.constraint) list.now }
    requires repertoire { AreOf settings.now.repertoire list.now }
    requires reduced { CanWrite (length names.now.names) list.now reduced.now }
    ensures text { IfOk result (λ text. text.items ≡ certificate_text settings.now.repertoire list.now reduced.now chain.now names.now.names traces events) }
    ensures verified { IfOk result (λ text. IsVerifiedText text.items) }
    ensures err { IfErr result (λ e. e ≡ Refusal.Memory) }
{
    let report = report_value(
        alloc,
        names,
        settings.repertoire,
        list,
        reduced,
        traces,
        events,
    )?;
    let certificate = certificate_value(alloc, report, chain)?;
    let text = text_of(alloc, &certificate)?;
    if is_verified(alloc, &text) {
        Ok(text)
    } else {
        Err(Refusal::Memory)
    }
}

/// Whether the text is a certificate whose verdict is yes; not so, too, where memory for that isn't there.
fn is_verified(alloc: Global, text: &[u8]) -> bool
    ensures { result ≡ true → IsVerifiedText text.now }
{
    match read_certificate(alloc, text) {
        Ok((claim, chain)) => verify(&claim, &chain) == Verdict::Yes,
        Err(_) => false,
    }
}
