ghost use Rattle.std.specs.Prelude.{◌≡◌, ◌≢◌, ◌<◌, ℕ, List, [], IfOk, IfErr, length};
ghost use Rattle.interplay_kb.specs.Ranks.{AreRanks, TellsOf, IsTelling, kb_of, rank_count, ranked};
ghost use Rattle.interplay_kb.specs.Stands.{StandsFor, IsBetweenTraces, activity_count};
ghost use Rattle.template_core.specs.Counts.{unary_counts, pair_counts};

use crate::Kb;
use crate::ranks::ids_by_rank;
use decl_base::Refusal;
use std::alloc::Global;
use template_core::{PairCounts, UnaryCounts};

/// The counters by rank: those of the log with each id replaced by its rank.
#[derive(Drop)]
pub struct RankedKb<'a> {
    kb: &'a Kb,
    /// The id of each rank.
    ids: Vec<u32>,
}

impl<'a> RankedKb<'a> {
    /// `ranks` has the rank of each id of the knowledge base, in which no trace is begun.
    pub fn of(alloc: Global, kb: &'a Kb, ranks: &[u32]) -> Result<RankedKb<'a>, Refusal>
        requires ranks { AreRanks (activity_count kb.now) ranks.now }
        requires stands { IsBetweenTraces kb.now }
        ensures tells { IfOk result (λ counters. (ended : List (List ℕ)) → StandsFor kb.now ended [] → TellsOf counters (ranked ranks.now ended)) }
        ensures telling { IfOk result IsTelling }
        ensures kb { IfOk result (λ counters. kb_of counters ≡ kb.now) }
        ensures count { IfOk result (λ counters. rank_count counters ≡ activity_count kb.now) }
        ensures err { IfErr result (λ e. e ≡ Refusal.Memory) }
    {
        let ids = ids_by_rank(alloc, ranks)?;
        Ok(RankedKb { kb, ids })
    }

    /// The counters of the activity of a rank.
    pub fn unary(&self, rank: u32) -> UnaryCounts
        requires known { rank < rank_count self.now }
        requires telling { IsTelling self.now }
        ensures { (log : List (List ℕ)) → TellsOf self.now log → result ≡ unary_counts rank log }
    {
        self.kb.unary(self.ids[rank as usize])
    }

    /// The counters of the ordered pair of the activities of two different ranks.
    pub fn pair(&self, first: u32, second: u32) -> PairCounts
        requires first { first < rank_count self.now }
        requires second { second < rank_count self.now }
        requires differ { first ≢ second }
        requires telling { IsTelling self.now }
        ensures { (log : List (List ℕ)) → TellsOf self.now log → result ≡ pair_counts first second log }
    {
        self.kb
            .pair(self.ids[first as usize], self.ids[second as usize])
    }

    /// The number of ranks.
    pub fn activities(&self) -> u32
        requires { IsTelling self.now }
        ensures { result ≡ rank_count self.now }
    {
        self.kb.activities()
    }

    /// The number of traces.
    pub fn traces(&self) -> u64
        ensures { (log : List (List ℕ)) → TellsOf self.now log → result ≡ length log }
    {
        self.kb.traces()
    }
}
