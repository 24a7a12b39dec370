ghost use Rattle.std.specs.Prelude.{◌≡◌, ◌+◌, ◌<◌, ◌≤◌, ◌↔◌, ℕ, IsTrue, MatchOption, IfOk, IfErr};
ghost use Rattle.dfa_core.specs.Automaton.{IsBreadthFirst, state_count, step};
ghost use Rattle.dfa_minimise.specs.Least.{IsLeast};
ghost use Rattle.model_compare.specs.Analysis.{AreThose};
ghost use Rattle.model_compare.specs.Unused.{IsSink, IsUnused};

use decl_base::Refusal;
use dfa_core::Dfa;
use std::alloc::Global;

/// The symbols, but the last, that no accepted trace of a least automaton has. Such a symbol leads from each state to the one state from which
/// nothing is accepted.
pub(crate) fn dead_symbols(alloc: Global, dfa: &Dfa) -> Result<Vec<u32>, Refusal>
    requires some_symbols { 1 ≤ dfa.now.symbols }
    requires least { IsLeast dfa.now }
    requires in_order { IsBreadthFirst dfa.now }
    ensures ok { IfOk result (λ dead. AreThose (λ x. (x + 1 < dfa.now.symbols) × IsUnused dfa.now x) dead.items) }
    ensures err { IfErr result (λ e. e ≡ Refusal.Memory) }
{
    let mut dead = Vec::new(alloc);
    let Some(sink) = sink_of(dfa) else {
        return Ok(dead);
    };
    for symbol in 0..dfa.symbols() - 1 {
        if leads_to(dfa, symbol, sink) {
            dead.push(symbol)?;
        }
    }
    Ok(dead)
}

/// A state that isn't accepting and that each step leads back to.
fn sink_of(dfa: &Dfa) -> Option<u32>
    ensures { MatchOption result ((q : ℕ) → q < state_count dfa.now → IsSink dfa.now q → ⊥) (λ q. (q < state_count dfa.now) × IsSink dfa.now q) }
{
    for state in 0..dfa.states() {
        if is_sink(dfa, state) {
            return Some(state);
        }
    }
    None
}

/// Whether a state isn't accepting, and each step leads back to it.
fn is_sink(dfa: &Dfa, state: u32) -> bool
    requires { state < state_count dfa.now }
    ensures { IsTrue result ↔ IsSink dfa.now state }
{
    if dfa.accepting(state) {
        return false;
    }
    for symbol in 0..dfa.symbols() {
        if dfa.step(state, symbol) != state {
            return false;
        }
    }
    true
}

/// Whether a symbol leads from each state to the given one.
fn leads_to(dfa: &Dfa, symbol: u32, target: u32) -> bool
    requires { symbol < dfa.now.symbols }
    ensures { IsTrue result ↔ ((q : ℕ) → q < state_count dfa.now → step dfa.now q symbol ≡ target) }
{
    for state in 0..dfa.states() {
        if dfa.step(state, symbol) != target {
            return false;
        }
    }
    true
}
