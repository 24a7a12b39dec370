ghost use Rattle.std.specs.Prelude.{◌≡◌, ◌<◌, ◌≤◌, length, All, IfOk, IfErr};
ghost use Rattle.decl_base.specs.Limits.{greatest_state_limit, standard};
ghost use Rattle.dfa_core.specs.Automaton.{Accepts, state_count};
ghost use Rattle.dfa_core.specs.Languages.{IsLeastIfAny};
ghost use Rattle.template_core.specs.Constraints.{IsWellMade, IsWellMadeFor};
ghost use Rattle.template_core.specs.Keeping.{KeepsOne};
ghost use Rattle.model_compare.specs.Analysis.{others as others_of};
ghost use Rattle.model_compare.specs.Narrow.{RefusesList};
ghost use Rattle.model_compare.specs.Unused.{AreRedundant, IsTold, RefusesOthers};

use crate::narrow::narrow_automaton;
use decl_base::{Refusal, Trace};
use dfa_core::Dfa;
use dfa_product::{Want, first_trace};
use std::alloc::Global;
use template_core::Constraint;
use template_set::table_of;

/// The numbers, from 1, of the constraints of a list that all the others imply. Refused, in phase 7, where the others, or a prefix of them, tell more
/// traces apart than `states`.
pub(crate) fn redundant_numbers(
    alloc: Global,
    list: &[Constraint],
    symbols: u32,
    states: u64,
) -> Result<Vec<u32>, Refusal>
    requires made { All (IsWellMadeFor symbols) list.now }
    requires short { length list.now ≤ standard.candidates }
    requires some_states { 1 ≤ states }
    requires few_states { states ≤ greatest_state_limit }
    ensures ok { IfOk result (λ numbers. AreRedundant symbols states list.now numbers.items) }
    ensures err { IfErr result (RefusesOthers symbols states list.now) }
{
    let mut redundant = Vec::new(alloc);
    for place in 0..list.len() {
        if is_implied(alloc, list, place, symbols, states)? {
            redundant.push(place as u32 + 1)?;
        }
    }
    Ok(redundant)
}

/// Whether the others imply the constraint at a place.
fn is_implied(
    alloc: Global,
    list: &[Constraint],
    place: usize,
    symbols: u32,
    states: u64,
) -> Result<bool, Refusal>
    requires made { All (IsWellMadeFor symbols) list.now }
    requires short { length list.now ≤ standard.candidates }
    requires place { place < length list.now }
    requires some_states { 1 ≤ states }
    requires few_states { states ≤ greatest_state_limit }
    ensures ok { IfOk result (IsTold symbols states list.now place) }
    ensures err { IfErr result (RefusesList symbols states 7 (others_of place list.now)) }
{
    let others = others(alloc, list, place)?;
    let dfa = narrow_automaton(alloc, &others, symbols, states, 7)?;
    let broken = first_broken(alloc, &dfa, &list[place])?;
    Ok(broken.is_none())
}

/// The constraints of a list but the one at a place.
fn others(alloc: Global, list: &[Constraint], place: usize) -> Result<Vec<Constraint>, Refusal>
    requires { place < length list.now }
    ensures ok { IfOk result (λ others. others.items ≡ others_of place list.now) }
    ensures err { IfErr result (λ e. e ≡ Refusal.Memory) }
{
    let mut others = Vec::from_slice(alloc, &list[..place])?;
    others.extend_from_slice(&list[place + 1..])?;
    Ok(others)
}

/// The least trace that an automaton accepts and that breaks a constraint.
fn first_broken(alloc: Global, dfa: &Dfa, constraint: &Constraint) -> Result<Option<Trace>, Refusal>
    requires made { IsWellMade constraint.now.kind constraint.now.first constraint.now.second }
    requires few { state_count dfa.now ≤ greatest_state_limit }
    ensures ok { IfOk result (IsLeastIfAny dfa.now.symbols (λ w. Accepts dfa.now w × (KeepsOne constraint.now w → ⊥))) }
    ensures err { IfErr result (λ e. e ≡ Refusal.Memory) }
{
    let want = Want::Beside {
        table: table_of(constraint.kind),
        constraint: *constraint,
    };
    first_trace(alloc, dfa, &want)
}
