ghost use Rattle.std.specs.Prelude.{◌≡◌, ◌<◌, ◌^◌, length, IfOk, IfErr};
ghost use Rattle.dfa_core.specs.Automaton.{Accepts};
ghost use Rattle.dfa_core.specs.Languages.{IsLeastIfAny};
ghost use Rattle.dfa_core.specs.Shortlex.{IsBefore};
ghost use Rattle.dfa_product.specs.AfterSteps.{side as side_of, sides as sides_of, standing as standing_of};

use crate::pairs::Pairs;
use decl_base::{Refusal, Trace};
use dfa_core::{Columned, Dfa, System, first_accepted};
use std::alloc::Global;

/// The longest trace after which another is sought.
const LONGEST: usize = 1 << 28;

/// The least trace in shortlex order that the automaton accepts and that stands after the given one. Where there are 2^32 pairs of a state and a
/// place of the trace, or the trace is longer than 2^28 events, the answer is `Refusal::Memory`, since the search's table would not fit either.
pub fn first_after(alloc: Global, dfa: &Dfa, trace: &Trace) -> Result<Option<Trace>, Refusal>
    ensures ok { IfOk result (IsLeastIfAny dfa.now.symbols (λ w. Accepts dfa.now w × IsBefore trace.now w)) }
    ensures err { IfErr result (λ e. e ≡ Refusal.Memory) }
{
    let events = trace.events();
    if events.len() > LONGEST {
        return Err(Refusal::Memory);
    }
    let second = After {
        symbols: dfa.symbols(),
        trace: events,
    };
    let width = second.states();
    if dfa.states() as u64 * width as u64 > u32::MAX as u64 {
        return Err(Refusal::Memory);
    }
    let pairs = Pairs {
        first: dfa,
        second: &second,
        width,
    };
    first_accepted(alloc, &pairs)
}

/// The traces over so many symbols that stand after a given one, as an automaton.
#[derive(Drop)]
struct After<'a> {
    symbols: u32,
    trace: &'a [u32],
    ghost short: { length trace.now < 2 ^ 29 },
}

impl System for After<'_> {
    ghost use Rattle.dfa_product.specs.AfterSteps.{after_steps};

    ghost steps = { λ a. after_steps a.symbols a.trace.now };

    fn symbols(&self) -> u32 {
        self.symbols
    }

    fn states(&self) -> u32 {
        self.trace.len() as u32 * 3 + 4
    }

    fn start(&self) -> u32 {
        1
    }

    fn step(&self, state: u32, symbol: u32) -> u32 {
        let place = state / 3;
        if place as usize >= self.trace.len() {
            return self.trace.len() as u32 * 3 + 3;
        }
        (place + 1) * 3 + standing(state % 3, self.trace[place as usize], symbol)
    }

    fn accepting(&self, state: u32) -> bool {
        state > self.trace.len() as u32 * 3 + 1
    }
}

impl Columned for After<'_> {
    ghost use Rattle.dfa_product.specs.AfterSteps.{side_columns};

    ghost columns = { λ a. side_columns a.trace.now };

    fn columns(&self) -> usize {
        self.trace.len() * 2 + 1
    }

    fn column(&self, symbol: u32) -> usize {
        sides(self.trace, symbol)
    }
}

/// The sum of an event's sides to the events of a trace.
fn sides(trace: &[u32], event: u32) -> usize
    requires { length trace.now < 2 ^ 29 }
    ensures { result ≡ sides_of trace.now event }
{
    let mut sum = 0;
    for given in trace {
        sum += side(*given, event) as usize;
    }
    sum
}

/// How what is read stands to a trace after an event, where that trace has `given`.
fn standing(before: u32, given: u32, event: u32) -> u32
    requires { before < 3 }
    ensures value { result ≡ standing_of before given event }
    ensures bound { result < 3 }
{
    if before == 1 {
        side(given, event)
    } else {
        before
    }
}

/// Where an event stands to another: 0 below it, 1 at it, 2 above it.
#[tactic(auto, unfolding(crate::specs::AfterSteps::side))]
fn side(given: u32, event: u32) -> u32
    ensures value { result ≡ side_of given event }
    ensures bound { result < 3 }
{
    if event < given {
        0
    } else if event == given {
        1
    } else {
        2
    }
}
