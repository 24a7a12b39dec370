ghost use Rattle.std.specs.Prelude.{◌≡◌, ◌≢◌, ◌<◌, ◌≤◌, ◌+◌, ◌^◌, ℕ, List, Some, None, OnOk, IfErr, if◌then◌else◌};
ghost use Rattle.interplay_kb.specs.Ranks.{TellsOf, rank_count};
ghost use Rattle.template_core.specs.Constraints.{IsTemplate};
ghost use Rattle.template_core.specs.Groups.{takes};
ghost use Rattle.scoring.specs.Candidates.{IsConstraintOver, reaches_all};
ghost use Rattle.scoring.specs.Scores.{scored};
ghost use Rattle.scoring.specs.Search.{taken, constraints_at, constraints_of_two, constraints_with_smaller, constraints_by_pair, turned, HasCounts, IsReady, Finds};

use crate::Scored;
use crate::found::Found;
use crate::scorer::reaching;
use decl_base::{Refusal, Thresholds};
use interplay_kb::RankedKb;
use template_core::{Constraint, Counts, Kind, PairCounts, takes};
use template_set::counts_of;

/// The counters of a template of one activity have no pair.
const NO_PAIR: PairCounts = PairCounts {
    without: 0,
    no_later: 0,
    no_earlier: 0,
    next: 0,
    previous: 0,
    rep_later: 0,
    rep_earlier: 0,
    together: 0,
};

/// The same counters for the two activities in the other order.
fn turned(counts: &Counts) -> Counts
    ensures { result ≡ turned counts.now }
{
    Counts {
        traces: counts.traces,
        first: counts.second,
        second: counts.first,
        onward: counts.back,
        back: counts.onward,
    }
}

/// What the candidates are made from. It goes over the pairs of ranks once, and over the templates at each.
#[derive(Clone, Copy)]
pub(crate) struct Search<'a> {
    pub counters: &'a RankedKb<'a>,
    pub kinds: &'a [Kind],
    pub thresholds: &'a Thresholds,
}

impl Search<'_> {
    /// Finds the candidates of all ranks.
    pub fn all(&self, found: &mut Found) -> Result<(), Refusal>
        requires ready { IsReady self.now.counters.now self.now.kinds.now self.now.thresholds.now }
        requires room { found.old.count ≡ 0 }
        ensures finds { OnOk result (Finds self.now.counters.now self.now.thresholds.now
            (constraints_by_pair self.now.kinds.now (rank_count self.now.counters.now)) found.old found.new) }
        ensures limit { found.new.limit ≡ found.old.limit }
        ensures err { IfErr result (λ e. e ≡ Refusal.Memory) }
    {
        for rank in 0..self.counters.activities() {
            self.of_rank(rank, found)?;
        }
        Ok(())
    }

    /// Finds those of an activity alone, and those of it and each of smaller rank.
    fn of_rank(&self, rank: u32, found: &mut Found) -> Result<(), Refusal>
        requires ready { IsReady self.now.counters.now self.now.kinds.now self.now.thresholds.now }
        requires known { rank < rank_count self.now.counters.now }
        requires room { found.old.count ≤ 2 ^ 40 }
        ensures finds { OnOk result (Finds self.now.counters.now self.now.thresholds.now
            (constraints_with_smaller self.now.kinds.now rank) found.old found.new) }
        ensures limit { found.new.limit ≡ found.old.limit }
        ensures count { OnOk result (found.new.count ≤ found.old.count + 100000) }
        ensures err { IfErr result (λ e. e ≡ Refusal.Memory) }
    {
        let alone = self.alone(rank);
        self.at(rank, rank, &alone, found)?;
        for smaller in 0..rank {
            self.of_two(smaller, rank, found)?;
        }
        Ok(())
    }

    /// Finds those of two activities, in both orders.
    fn of_two(&self, low: u32, high: u32, found: &mut Found) -> Result<(), Refusal>
        requires ready { IsReady self.now.counters.now self.now.kinds.now self.now.thresholds.now }
        requires order { low < high }
        requires known { high < rank_count self.now.counters.now }
        requires room { found.old.count ≤ 2 ^ 40 + 100000 }
        ensures finds { OnOk result (Finds self.now.counters.now self.now.thresholds.now
            (constraints_of_two self.now.kinds.now low high) found.old found.new) }
        ensures limit { found.new.limit ≡ found.old.limit }
        ensures count { OnOk result (found.new.count ≤ found.old.count + 100) }
        ensures err { IfErr result (λ e. e ≡ Refusal.Memory) }
    {
        let counts = self.between(low, high);
        self.at(low, high, &counts, found)?;
        self.at(high, low, &turned(&counts), found)
    }

    /// Finds those of two ranks in this order; the ranks of one activity are the same.
    fn at(&self, first: u32, second: u32, counts: &Counts, found: &mut Found) -> Result<(), Refusal>
        requires ready { IsReady self.now.counters.now self.now.kinds.now self.now.thresholds.now }
        requires first { first < rank_count self.now.counters.now }
        requires second { second < rank_count self.now.counters.now }
        requires counts { HasCounts self.now.counters.now first second counts.now }
        requires room { found.old.count ≤ 2 ^ 40 + 100050 }
        ensures finds { OnOk result (Finds self.now.counters.now self.now.thresholds.now
            (constraints_at self.now.kinds.now first second) found.old found.new) }
        ensures limit { found.new.limit ≡ found.old.limit }
        ensures count { OnOk result (found.new.count ≤ found.old.count + 50) }
        ensures err { IfErr result (λ e. e ≡ Refusal.Memory) }
    {
        for kind in self.kinds {
            self.visit(*kind, first, second, counts, found)?;
        }
        Ok(())
    }

    /// Adds the constraint of a template and two ranks, if it is a candidate.
    fn visit(
        &self,
        kind: Kind,
        first: u32,
        second: u32,
        counts: &Counts,
        found: &mut Found,
    ) -> Result<(), Refusal>
        requires template { IsTemplate kind }
        requires ready { IsReady self.now.counters.now self.now.kinds.now self.now.thresholds.now }
        requires first { first < rank_count self.now.counters.now }
        requires second { second < rank_count self.now.counters.now }
        requires counts { HasCounts self.now.counters.now first second counts.now }
        requires room { found.old.count < 2 ^ 41 }
        ensures finds { OnOk result (Finds self.now.counters.now self.now.thresholds.now
            (taken first second kind) found.old found.new) }
        ensures limit { found.new.limit ≡ found.old.limit }
        ensures count { OnOk result (found.new.count ≤ found.old.count + 1) }
        ensures err { IfErr result (λ e. e ≡ Refusal.Memory) }
    {
        if !takes(kind, first, second) {
            return Ok(());
        }
        let constraint = Constraint {
            kind,
            first,
            second,
        };
        match self.score(constraint, counts) {
            Some(scored) => found.add(scored),
            None => Ok(()),
        }
    }

    /// The constraint with its scores, if these reach the thresholds.
    fn score(&self, constraint: Constraint, counts: &Counts) -> Option<Scored>
        requires ready { IsReady self.now.counters.now self.now.kinds.now self.now.thresholds.now }
        requires over { IsConstraintOver (rank_count self.now.counters.now) constraint }
        requires counts { HasCounts self.now.counters.now constraint.first constraint.second counts.now }
        ensures { (log : List (List ℕ)) → TellsOf self.now.counters.now log → let scored = scored log constraint in
            result ≡ (if reaches_all self.now.thresholds.now scored then Some scored else None) }
    {
        let numbers = counts_of(constraint.kind, counts);
        reaching(constraint, &numbers, counts.traces, self.thresholds)
    }

    /// The counters of an activity, for the templates of one activity.
    fn alone(&self, rank: u32) -> Counts
        requires ready { IsReady self.now.counters.now self.now.kinds.now self.now.thresholds.now }
        requires known { rank < rank_count self.now.counters.now }
        ensures { HasCounts self.now.counters.now rank rank result }
    {
        let activity = self.counters.unary(rank);
        Counts {
            traces: self.counters.traces(),
            first: activity,
            second: activity,
            onward: NO_PAIR,
            back: NO_PAIR,
        }
    }

    /// The counters of two activities, for the templates of two.
    fn between(&self, first: u32, second: u32) -> Counts
        requires ready { IsReady self.now.counters.now self.now.kinds.now self.now.thresholds.now }
        requires first { first < rank_count self.now.counters.now }
        requires second { second < rank_count self.now.counters.now }
        requires differ { first ≢ second }
        ensures onward { HasCounts self.now.counters.now first second result }
        ensures back { HasCounts self.now.counters.now second first (turned result) }
    {
        Counts {
            traces: self.counters.traces(),
            first: self.counters.unary(first),
            second: self.counters.unary(second),
            onward: self.counters.pair(first, second),
            back: self.counters.pair(second, first),
        }
    }
}
