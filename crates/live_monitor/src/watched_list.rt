ghost use Rattle.std.specs.Prelude.{◌≡◌, ◌↔◌, ◌<◌, ◌≤◌, ℕ, [], All, IsTrue, IfOk, IfErr, length, slice_index_or};
ghost use Rattle.decl_base.specs.Limits.{greatest_state_limit, standard};
ghost use Rattle.dfa_core.specs.Automaton.{state_count, step};
ghost use Rattle.dfa_minimise.specs.Least.{IsLeast};
ghost use Rattle.list_dfa.specs.Lists.{IsNarrowList};
ghost use Rattle.template_core.specs.Constraints.{IsWellMadeFor};
ghost use Rattle.live_monitor.specs.Standing.{IsStanding, RefusesMonitor};
ghost use Rattle.live_monitor.specs.Watching.{AcceptsFrom, IsWatchedList, settled_by};

use crate::Standing;
use decl_base::Refusal;
use dfa_core::Dfa;
use list_dfa::{Listed, automaton_of};
use std::alloc::Global;
use template_core::Constraint;

/// The phase that a refusal of a monitor names.
const PHASE: u8 = 5;

/// The least automaton of a list, and the standing of a trace that leads to each state of it.
#[derive(Drop)]
pub(crate) struct WatchedList {
    pub dfa: Dfa,
    pub standings: Vec<Standing>,
}

impl WatchedList {
    /// The list over so many symbols, where neither it nor a prefix of it tells more traces apart than `states`.
    pub(crate) fn of(
        alloc: Global,
        list: &[Constraint],
        symbols: u32,
        states: u64,
    ) -> Result<WatchedList, Refusal>
        requires made { All (IsWellMadeFor symbols) list.now }
        requires short { length list.now ≤ standard.candidates }
        requires some_states { 1 ≤ states }
        requires few_states { states ≤ greatest_state_limit }
        ensures ok { IfOk result (IsWatchedList symbols list.now) }
        ensures narrow { IfOk result (λ _. IsNarrowList symbols states list.now) }
        ensures err { IfErr result (RefusesMonitor symbols states list.now) }
    {
        match automaton_of(alloc, list, symbols, states)? {
            Listed::Wide(built) => Err(Refusal::States {
                phase: PHASE,
                built,
            }),
            Listed::Narrow(dfa) => {
                let standings = standings_of(alloc, &dfa)?;
                Ok(WatchedList { dfa, standings })
            }
        }
    }
}

/// The standings of traces that lead to the states of a least automaton.
fn standings_of(alloc: Global, dfa: &Dfa) -> Result<Vec<Standing>, Refusal>
    requires { IsLeast dfa.now }
    ensures as_many { IfOk result (λ standings. length standings.items ≡ state_count dfa.now) }
    ensures are { IfOk result (λ standings. (state : ℕ) → state < state_count dfa.now
        → IsStanding dfa.now.symbols (AcceptsFrom dfa.now state) [] (slice_index_or standings.items state Standing.Kept)) }
    ensures err { IfErr result (λ e. e ≡ Refusal.Memory) }
{
    let mut standings = Vec::new(alloc);
    for state in 0..dfa.states() {
        standings.push(standing_at(dfa, state))?;
    }
    Ok(standings)
}

/// The standing of a trace that leads to this state of a least automaton. From a state where nothing can change, every event leads back to it.
fn standing_at(dfa: &Dfa, state: u32) -> Standing
    requires least { IsLeast dfa.now }
    requires state { state < state_count dfa.now }
    ensures { IsStanding dfa.now.symbols (AcceptsFrom dfa.now state) [] result }
{
    let keeps = dfa.accepting(state);
    let settled = stays(dfa, state);
    settled_standing(keeps, settled)
}

fn settled_standing(keeps: bool, settled: bool) -> Standing
    ensures { result ≡ settled_by keeps settled }
{
    match (keeps, settled) {
        (true, true) => Standing::Kept,
        (true, false) => Standing::KeptNow,
        (false, false) => Standing::BrokenNow,
        (false, true) => Standing::Broken,
    }
}

/// Whether every symbol leads from the state back to it.
fn stays(dfa: &Dfa, state: u32) -> bool
    requires { state < state_count dfa.now }
    ensures { IsTrue result ↔ ((symbol : ℕ) → symbol < dfa.now.symbols → step dfa.now state symbol ≡ state) }
{
    for symbol in 0..dfa.symbols() {
        if dfa.step(state, symbol) != state {
            return false;
        }
    }
    true
}
