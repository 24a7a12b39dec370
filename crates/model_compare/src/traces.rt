ghost use Rattle.std.specs.Prelude.{◌≡◌, ◌-◌, length, slice_get, IfOk, IfErr};
ghost use Rattle.dfa_core.specs.Automaton.{Accepts};
ghost use Rattle.dfa_core.specs.Languages.{IsLeastIfAny};
ghost use Rattle.model_compare.specs.Analysis.{AreFirst};
ghost use Rattle.model_compare.specs.Unused.{IsPast};

use decl_base::{Refusal, Trace};
use dfa_core::Dfa;
use dfa_product::{Want, first_after, first_trace};
use std::alloc::Global;

/// The first traces in shortlex order that an automaton accepts: so many of them, or all where there are fewer.
pub(crate) fn first_traces(alloc: Global, dfa: &Dfa, count: u32) -> Result<Vec<Trace>, Refusal>
    ensures ok { IfOk result (λ traces. AreFirst dfa.now.symbols (Accepts dfa.now) count traces.items) }
    ensures err { IfErr result (λ e. e ≡ Refusal.Memory) }
{
    let mut traces = Vec::new(alloc);
    for _ in 0..count {
        let Some(trace) = next_trace(alloc, dfa, &traces)? else {
            return Ok(traces);
        };
        traces.push(trace)?;
    }
    Ok(traces)
}

/// The least trace that an automaton accepts after the last of the given ones, and the least of all where none is given.
fn next_trace(alloc: Global, dfa: &Dfa, traces: &[Trace]) -> Result<Option<Trace>, Refusal>
    ensures ok { IfOk result (IsLeastIfAny dfa.now.symbols (λ w. Accepts dfa.now w × IsPast (slice_get traces.now (length traces.now - 1)) w)) }
    ensures err { IfErr result (λ e. e ≡ Refusal.Memory) }
{
    match traces.last() {
        Some(last) => first_after(alloc, dfa, last),
        None => first_trace(alloc, dfa, &Want::Accepted),
    }
}
