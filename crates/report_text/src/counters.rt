ghost use Rattle.std.specs.Prelude.{◌≡◌, ◌≢◌, ◌<◌, ◌++◌, [], List, ℕ, map, string_bytes, length, IfOk, IfErr, OnOk};
ghost use Rattle.std.specs.List.{flat_map, range_with_len};
ghost use Rattle.interplay_kb.specs.Ranks.{AreRanks, TellsOf, IsTelling, rank_count, ranked};
ghost use Rattle.interplay_kb.specs.Stands.{StandsFor, IsBetweenTraces, activity_count};
ghost use Rattle.report_text.specs.Fields.{quoted};
ghost use Rattle.report_text.specs.KbTable.{activity_line, pair_line, pair_lines, kb_text};

use crate::fields::{put_columns, put_number, quote_all};
use decl_base::Refusal;
use event_log::Alphabet;
use interplay_kb::{Kb, RankedKb};
use std::alloc::{AllocError, Global};

/// The width of a number's column.
const WIDTH: usize = 12;

const ACTIVITY_HEADING: &str =
    " occurrences       traces     repeated        first         last activity\n";

const PAIR_HEADING: &str =
    "     without     no_later   no_earlier         next     previous    rep_later  rep_earlier     together pair\n";

/// The table of the counters: the number of traces, a line of each activity, and one of each ordered pair of two.
/// `names` has the name of each rank, and `ranks` the rank of each id of the knowledge base.
pub fn kb_table(alloc: Global, names: &Alphabet, kb: &Kb, ranks: &[u32]) -> Result<Vec<u8>, Refusal>
    requires names { length names.now.names ≡ activity_count kb.now }
    requires ranks { AreRanks (activity_count kb.now) ranks.now }
    requires stands { IsBetweenTraces kb.now }
    ensures ok { IfOk result (λ text. (ended : List (List ℕ)) → StandsFor kb.now ended []
        → text.items ≡ kb_text names.now.names (ranked ranks.now ended)) }
    ensures err { IfErr result (λ e. e ≡ Refusal.Memory) }
{
    let counters = RankedKb::of(alloc, kb, ranks)?;
    let texts = quote_all(alloc, names)?;
    let mut out = Vec::new(alloc);
    out.extend_from_slice(b"traces ")?;
    put_number(&mut out, counters.traces())?;
    out.extend_from_slice(b"\n")?;
    out.extend_from_slice(ACTIVITY_HEADING.as_bytes())?;
    put_activities(&mut out, &counters, &texts)?;
    out.extend_from_slice(PAIR_HEADING.as_bytes())?;
    put_all_pairs(&mut out, &counters, &texts)?;
    Ok(out)
}

fn put_activities(
    out: &mut Vec<u8>,
    counters: &RankedKb,
    texts: &[String],
) -> Result<(), AllocError>
    requires telling { IsTelling counters.now }
    requires texts { length texts.now ≡ rank_count counters.now }
    ensures { OnOk result ((names log : List (List ℕ)) → map string_bytes texts.now ≡ map quoted names → TellsOf counters.now log
        → out.new.items ≡ out.old.items ++ flat_map (activity_line names log) (range_with_len 0 (length texts.now))) }
{
    for rank in 0..texts.len() {
        put_activity(out, counters, texts, rank)?;
    }
    Ok(())
}

/// The line of the activity of a rank.
fn put_activity(
    out: &mut Vec<u8>,
    counters: &RankedKb,
    texts: &[String],
    rank: usize,
) -> Result<(), AllocError>
    requires telling { IsTelling counters.now }
    requires texts { length texts.now ≡ rank_count counters.now }
    requires rank { rank < length texts.now }
    ensures { OnOk result ((names log : List (List ℕ)) → map string_bytes texts.now ≡ map quoted names → TellsOf counters.now log
        → out.new.items ≡ out.old.items ++ activity_line names log rank) }
{
    let counts = counters.unary(rank as u32);
    let numbers = [
        counts.occurrences,
        counts.traces,
        counts.repeated,
        counts.first,
        counts.last,
    ];
    put_columns(out, WIDTH, &numbers)?;
    out.extend_from_slice(texts[rank].as_bytes())?;
    out.push(b'\n')?;
    Ok(())
}

fn put_all_pairs(out: &mut Vec<u8>, counters: &RankedKb, texts: &[String]) -> Result<(), AllocError>
    requires telling { IsTelling counters.now }
    requires texts { length texts.now ≡ rank_count counters.now }
    ensures { OnOk result ((names log : List (List ℕ)) → map string_bytes texts.now ≡ map quoted names → TellsOf counters.now log
        → out.new.items ≡ out.old.items ++ flat_map (pair_lines names log) (range_with_len 0 (length texts.now))) }
{
    for rank in 0..texts.len() {
        put_pairs(out, counters, texts, rank)?;
    }
    Ok(())
}

/// The lines of the pairs of an activity with each other one.
fn put_pairs(
    out: &mut Vec<u8>,
    counters: &RankedKb,
    texts: &[String],
    first: usize,
) -> Result<(), AllocError>
    requires telling { IsTelling counters.now }
    requires texts { length texts.now ≡ rank_count counters.now }
    requires first { first < length texts.now }
    ensures { OnOk result ((names log : List (List ℕ)) → map string_bytes texts.now ≡ map quoted names → TellsOf counters.now log
        → out.new.items ≡ out.old.items ++ pair_lines names log first) }
{
    for second in 0..texts.len() {
        if first != second {
            put_pair(out, counters, texts, first, second)?;
        }
    }
    Ok(())
}

/// The line of a pair.
fn put_pair(
    out: &mut Vec<u8>,
    counters: &RankedKb,
    texts: &[String],
    first: usize,
    second: usize,
) -> Result<(), AllocError>
    requires telling { IsTelling counters.now }
    requires texts { length texts.now ≡ rank_count counters.now }
    requires first { first < length texts.now }
    requires second { second < length texts.now }
    requires differ { first ≢ second }
    ensures { OnOk result ((names log : List (List ℕ)) → map string_bytes texts.now ≡ map quoted names → TellsOf counters.now log
        → out.new.items ≡ out.old.items ++ pair_line names log first second) }
{
    let counts = counters.pair(first as u32, second as u32);
    let numbers = [
        counts.without,
        counts.no_later,
        counts.no_earlier,
        counts.next,
        counts.previous,
        counts.rep_later,
        counts.rep_earlier,
        counts.together,
    ];
    put_columns(out, WIDTH, &numbers)?;
    out.extend_from_slice(texts[first].as_bytes())?;
    out.push(b' ')?;
    out.extend_from_slice(texts[second].as_bytes())?;
    out.push(b'\n')?;
    Ok(())
}

#[cfg(test)]
mod tests {
    use super::*;
    use interplay_kb::{feed_trace, with_activities};
    use std::test::Fail;

    /// The trace `ab`, whose activities are met in the order of their names.
    #[test]
    fn one_trace(rt: HostRuntime) -> Result<(), Fail> {
        let mut names = Alphabet::new(rt.alloc(), 1_000);
        names.add("a")?;
        names.add("b")?;
        let mut kb = with_activities(rt.alloc(), 2)?;
        feed_trace(&mut kb, &[0, 1]);
        let text = kb_table(rt.alloc(), &names, &kb, &[0, 1])?;
        let expected =
            "traces 1\n occurrences       traces     repeated        first         last activity\n           1            1            0            1            0 \"a\"\n           1            1            0            0            1 \"b\"\n     without     no_later   no_earlier         next     previous    rep_later  rep_earlier     together pair\n           0            0            1            1            0            0            0            1 \"a\" \"b\"\n           0            1            0            0            1            0            0            1 \"b\" \"a\"\n";
        assert_eq!(rt; text.as_slice(), expected.as_bytes());
        Ok(())
    }

    #[test]
    fn no_trace(rt: HostRuntime) -> Result<(), Fail> {
        let names = Alphabet::new(rt.alloc(), 1_000);
        let kb = with_activities(rt.alloc(), 0)?;
        let text = kb_table(rt.alloc(), &names, &kb, &[])?;
        let expected =
            "traces 0\n occurrences       traces     repeated        first         last activity\n     without     no_later   no_earlier         next     previous    rep_later  rep_earlier     together pair\n";
        assert_eq!(rt; text.as_slice(), expected.as_bytes());
        Ok(())
    }
}
