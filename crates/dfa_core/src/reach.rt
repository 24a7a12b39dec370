ghost use Rattle.std.specs.Prelude.{◌≡◌, ◌<◌, IfOk, IfErr};
ghost use Rattle.dfa_core.specs.Automaton.{IsReachable, steps_of};
ghost use Rattle.dfa_core.specs.Columns.{HasColumns};
ghost use Rattle.dfa_core.specs.Languages.{IsLeastIfAny};
ghost use Rattle.dfa_core.specs.Searching.{IsExplored};
ghost use Rattle.dfa_core.specs.Steps.{Steps, Accepts};

use crate::columns::{ByColumns, Grouping};
use crate::search::Search;
use crate::{Columned, Dfa};
use decl_base::{Refusal, Trace};
use std::alloc::Global;

/// A complete automaton that tells its steps one by one, without a table. Its states are numbered from 0.
pub trait System {
    ghost steps: { Self → Steps };

    /// The number of symbols.
    fn symbols(&self) -> u32
        ensures { result ≡ (steps self.now).symbols };

    /// The number of states.
    fn states(&self) -> u32
        ensures { result ≡ (steps self.now).states };

    /// The state at which a trace starts.
    fn start(&self) -> u32
        ensures value { result ≡ (steps self.now).start }
        ensures bound { result < (steps self.now).states };

    /// The state after a symbol.
    fn step(&self, state: u32, symbol: u32) -> u32
        requires state { state < (steps self.now).states }
        requires symbol { symbol < (steps self.now).symbols }
        ensures value { result ≡ (steps self.now).next state symbol }
        ensures bound { result < (steps self.now).states };

    /// Whether a trace that ends at the state is accepted.
    fn accepting(&self, state: u32) -> bool
        requires { state < (steps self.now).states }
        ensures { result ≡ (steps self.now).accepting state };
}

/// The states that can be reached, by their numbers, and a table of these numbers.
#[derive(Drop)]
struct Explored {
    states: Vec<u32>,
    next: Vec<u32>,
}

/// The states of the system that can be reached from its start, numbered as they are found breadth first.
fn explore<S: System>(alloc: Global, system: &S) -> Result<Explored, Refusal>
    ensures ok { IfOk result (λ e. IsExplored (S.steps system.now) e.states.items e.next.items) }
    ensures err { IfErr result (λ e. e ≡ Refusal.Memory) }
{
    let symbols = system.symbols();
    let mut search = Search::at(alloc, system.states(), system.start())?;
    let mut next = Vec::new(alloc);
    let mut at = 0;
    'rows: while at < search.states.len() {
        'steps: for symbol in 0..symbols {
            let number = search.follow(system, at, symbol, next.len())?;
            next.push(number)?;
        }
        at += 1;
    }
    let Search {
        states,
        found: _,
        numbers: _,
    } = search;
    Ok(Explored { states, next })
}

/// The automaton of what can be reached from the system's start. Its states are in breadth-first order, and each of its columns is that of some
/// symbol.
pub fn reachable<S: Columned>(alloc: Global, system: &S) -> Result<Dfa, Refusal>
    ensures ok { IfOk result (IsReachable (S.steps system.now)) }
    ensures columns { IfOk result (HasColumns (S.columns system.now)) }
    ensures err { IfErr result (λ e. e ≡ Refusal.Memory) }
{
    let grouping = Grouping::of(alloc, system)?;
    let Explored { states, next } = explore(
        alloc,
        &ByColumns {
            system,
            grouping: &grouping,
        },
    )?;
    let mut accepting = Vec::new(alloc);
    for state in &states {
        accepting.push(system.accepting(*state))?;
    }
    let Grouping {
        of,
        least,
        numbers: _,
    } = grouping;
    Ok(Dfa::of(of, least.len() as u32, 0, next, accepting))
}

/// The least trace in shortlex order that the system accepts. The search goes over columns, each by its least symbol, and ends as soon as it finds
/// an accepting state.
pub fn first_accepted<S: Columned>(alloc: Global, system: &S) -> Result<Option<Trace>, Refusal>
    ensures ok { IfOk result (IsLeastIfAny (S.steps system.now).symbols (Accepts (S.steps system.now))) }
    ensures err { IfErr result (λ e. e ≡ Refusal.Memory) }
{
    let grouping = Grouping::of(alloc, system)?;
    let columns = ByColumns {
        system,
        grouping: &grouping,
    };
    match first_found(alloc, &columns)? {
        Some(found) => Ok(Some(grouping.least_trace(alloc, found.events())?)),
        None => Ok(None),
    }
}

/// The least trace that the system accepts, by a search over all symbols.
fn first_found<S: System>(alloc: Global, system: &S) -> Result<Option<Trace>, Refusal>
    ensures ok { IfOk result (IsLeastIfAny (S.steps system.now).symbols (Accepts (S.steps system.now))) }
    ensures err { IfErr result (λ e. e ≡ Refusal.Memory) }
{
    if system.accepting(system.start()) {
        return Ok(Some(Trace::of(alloc, &[])?));
    }
    let symbols = system.symbols();
    let mut search = Search::at(alloc, system.states(), system.start())?;
    let mut at = 0;
    let mut place = 0;
    'rows: while at < search.states.len() {
        'steps: for symbol in 0..symbols {
            let count = search.states.len();
            let number = search.follow(system, at, symbol, place)?;
            if number as usize == count && system.accepting(search.states[count]) {
                return Ok(Some(search.trace_to(alloc, symbols, number)?));
            }
            place += 1;
        }
        at += 1;
    }
    Ok(None)
}

impl System for Dfa {
    ghost steps = { steps_of };

    fn symbols(&self) -> u32 {
        self.symbols()
    }

    fn states(&self) -> u32 {
        self.states()
    }

    fn start(&self) -> u32 {
        self.start()
    }

    fn step(&self, state: u32, symbol: u32) -> u32 {
        self.step(state, symbol)
    }

    fn accepting(&self, state: u32) -> bool {
        self.accepting(state)
    }
}
