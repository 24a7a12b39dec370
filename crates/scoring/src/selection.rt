ghost use Rattle.std.specs.Prelude.{◌≡◌, ◌≤◌, ℕ, List, [], IfOk, IfErr, vec_len};
ghost use Rattle.interplay_kb.specs.Ranks.{AreRanks, ranked};
ghost use Rattle.interplay_kb.specs.Stands.{StandsFor, activity_count};
ghost use Rattle.scoring.specs.Candidates.{candidates_of, CandidatesCause};
ghost use Rattle.scoring.specs.Conditions.{HasEachEvent, AreThresholds};

use crate::Scored;
use crate::found::Found;
use crate::mined::mined_kinds;
use crate::priority::sort;
use crate::search::Search;
use decl_base::{Refusal, Thresholds};
use interplay_kb::{Kb, RankedKb};
use std::alloc::Global;
use template_core::Repertoire;

/// The candidates of the log that the counters stand for, in the order of priority: the constraints of the repertoire
/// over ranks whose three scores each reach their threshold. `ranks` has the rank of each id. Each activity has an
/// event, and no trace is begun.
///
/// `Candidates` where they are more than the limit.
pub fn candidates(
    alloc: Global,
    kb: &Kb,
    ranks: &[u32],
    repertoire: Repertoire,
    thresholds: &Thresholds,
    limit: u64,
) -> Result<Vec<Scored>, Refusal>
    requires stands { HasEachEvent kb.now }
    requires ranks { AreRanks (activity_count kb.now) ranks.now }
    requires thresholds { AreThresholds thresholds.now }

    ensures list { IfOk result (λ list. (ended : List (List ℕ)) → StandsFor kb.now ended []
        → list.items ≡ candidates_of (ranked ranks.now ended) (activity_count kb.now) repertoire thresholds.now) }
    ensures within { IfOk result (λ list. vec_len list ≤ limit) }

    ensures cause { IfErr result (λ refusal. (ended : List (List ℕ)) → StandsFor kb.now ended []
        → CandidatesCause limit (candidates_of (ranked ranks.now ended) (activity_count kb.now) repertoire thresholds.now) refusal) }
{
    let counters = RankedKb::of(alloc, kb, ranks)?;
    let kinds = mined_kinds(alloc, repertoire)?;
    let mut found = Found::new(alloc, limit);
    let search = Search {
        counters: &counters,
        kinds: &kinds,
        thresholds,
    };
    search.all(&mut found)?;
    let Found {
        mut list,
        count,
        ..
    } = found;
    if count > limit {
        return Err(Refusal::Candidates { count });
    }
    sort(&mut list)?;
    Ok(list)
}

#[cfg(test)]
mod tests {
    use super::*;
    use decl_base::Threshold;
    use interplay_kb::{feed_trace, with_activities};
    use std::test::Fail;
    use template_core::Kind;

    /// The traces `b` and `a`: the id of b is 0, its rank 1.
    fn two_traces(alloc: Global) -> Result<Kb, Refusal>
        ensures events { IfOk result HasEachEvent }
        ensures activities { IfOk result (λ kb. activity_count kb ≡ 2) }
    {
        let mut kb = with_activities(alloc, 2)?;
        feed_trace(&mut kb, &[0]);
        feed_trace(&mut kb, &[1]);
        Ok(kb)
    }

    /// Template, ranks, and the denominators of the scores. Each numerator is 1.
    fn expected() -> [(Kind, u32, u32, [u64; 3]); 13] {
        [
            (Kind::AtMostOne, 0, 0, [1, 1, 2]),
            (Kind::AtMostOne, 1, 1, [1, 1, 2]),
            (Kind::NotCoExistence, 0, 1, [1, 1, 2]),
            (Kind::NotSuccession, 0, 1, [1, 1, 2]),
            (Kind::NotSuccession, 1, 0, [1, 1, 2]),
            (Kind::NotChainSuccession, 0, 1, [1, 1, 2]),
            (Kind::NotChainSuccession, 1, 0, [1, 1, 2]),
            (Kind::Init, 0, 0, [2, 2, 4]),
            (Kind::Init, 1, 1, [2, 2, 4]),
            (Kind::End, 0, 0, [2, 2, 4]),
            (Kind::End, 1, 1, [2, 2, 4]),
            (Kind::Participation, 0, 0, [2, 2, 4]),
            (Kind::Participation, 1, 1, [2, 2, 4]),
        ]
    }

    #[test]
    fn thirteen_candidates(rt: HostRuntime) -> Result<(), Fail> {
        let thresholds = Thresholds {
            support: Threshold {
                millionths: 500_000,
            },
            confidence: Threshold { millionths: 0 },
            interest: Threshold { millionths: 0 },
        };
        let kb = two_traces(rt.alloc())?;
        let refused = candidates(rt.alloc(), &kb, &[1, 0], Repertoire::First, &thresholds, 12);
        assert!(rt; matches!(refused, Err(Refusal::Candidates { count: 13 })));
        let list = candidates(rt.alloc(), &kb, &[1, 0], Repertoire::First, &thresholds, 13)?;
        assert_eq!(rt; list.len(), 13);
        for (scored, (kind, first, second, dens)) in list.iter().zip(expected()) {
            let c = scored.constraint;
            assert_eq!(rt; (c.kind, c.first, c.second), (kind, first, second));
            let (support, confidence, interest) = (
                scored.support,
                scored.confidence,
                scored.interest,
            );
            assert_eq!(rt;
                [support.num(), confidence.num(), interest.num()],
                [1, 1, 1]
            );
            assert_eq!(rt; [support.den(), confidence.den(), interest.den()], dens);
        }
        Ok(())
    }
}
