ghost use Rattle.std.specs.Prelude.{◌≡◌, ◌≤◌, IfOk, IfErr, MatchOption};
ghost use Rattle.decl_base.specs.Limits.{greatest_state_limit};
ghost use Rattle.dfa_core.specs.Automaton.{Accepts, state_count};
ghost use Rattle.dfa_core.specs.Languages.{IsLeastIfAny};
ghost use Rattle.dfa_minimise.specs.Wide.{IsWide};
ghost use Rattle.template_core.specs.Constraints.{IsWellMade};
ghost use Rattle.list_dfa.specs.Extending.{AcceptsBroken, AcceptsKept, Extends, IsFitted, IsNarrowed};

use decl_base::{Refusal, Trace};
use dfa_core::Dfa;
use dfa_minimise::least_within;
use dfa_product::{Want, first_trace, meet};
use std::alloc::Global;
use template_core::Constraint;
use template_set::table_of;

/// The least trace that an automaton accepts and that breaks a constraint.
pub fn first_broken(
    alloc: Global,
    dfa: &Dfa,
    constraint: &Constraint,
) -> Result<Option<Trace>, Refusal>
    requires made { IsWellMade constraint.now.kind constraint.now.first constraint.now.second }
    requires few { state_count dfa.now ≤ greatest_state_limit }
    ensures ok { IfOk result (IsLeastIfAny dfa.now.symbols (AcceptsBroken dfa.now constraint.now)) }
    ensures err { IfErr result (λ e. e ≡ Refusal.Memory) }
{
    let want = Want::Beside {
        table: table_of(constraint.kind),
        constraint: *constraint,
    };
    first_trace(alloc, dfa, &want)
}

/// The automaton of the traces that an automaton accepts and that keep a constraint, or None where it tells more traces apart than `states`.
/// `last` is as `fitted` has it.
pub fn extended(
    alloc: Global,
    dfa: &Dfa,
    constraint: &Constraint,
    states: u64,
    last: &mut u32,
) -> Result<Option<Dfa>, Refusal>
    requires made { IsWellMade constraint.now.kind constraint.now.first constraint.now.second }
    requires few { state_count dfa.now ≤ greatest_state_limit }
    ensures ok { IfOk result (λ extended. MatchOption extended (IsWide dfa.now.symbols (AcceptsKept dfa.now constraint.now) states)
        (Extends states dfa.now constraint.now)) }
    ensures err { IfErr result (λ e. e ≡ Refusal.Memory) }
{
    let both = narrowed(alloc, dfa, constraint)?;
    fitted(alloc, both, states, last)
}

/// The automaton of the traces that an automaton accepts and that keep a constraint.
pub fn narrowed(alloc: Global, dfa: &Dfa, constraint: &Constraint) -> Result<Dfa, Refusal>
    requires made { IsWellMade constraint.now.kind constraint.now.first constraint.now.second }
    requires few { state_count dfa.now ≤ greatest_state_limit }
    ensures ok { IfOk result (IsNarrowed dfa.now constraint.now) }
    ensures err { IfErr result (λ e. e ≡ Refusal.Memory) }
{
    let table = table_of(constraint.kind);
    meet(alloc, dfa, &table, constraint)
}

/// An automaton of the same traces, or None where they tell more traces apart than `states`. It is made least where it has more than twice
/// as many states as the last one that was, whose number of states is `last`: few states tell few traces apart.
pub fn fitted(alloc: Global, dfa: Dfa, states: u64, last: &mut u32) -> Result<Option<Dfa>, Refusal>
    ensures ok { IfOk result (λ fitted. MatchOption fitted (IsWide dfa.symbols (Accepts dfa) states) (IsFitted states dfa)) }
    ensures err { IfErr result (λ e. e ≡ Refusal.Memory) }
{
    let count = dfa.states();
    if count / 2 <= *last && count as u64 <= states {
        return Ok(Some(dfa));
    }
    let Some(fewest) = least_within(alloc, &dfa, states)? else {
        return Ok(None);
    };
    *last = fewest.states();
    Ok(Some(fewest))
}
