ghost use Rattle.std.specs.Prelude.{◌≡◌, ◌↔◌, ◌<◌, ◌≤◌, ℕ, All, IsTrue, length};
ghost use Rattle.decl_base.specs.Limits.{standard};
ghost use Rattle.template_core.specs.Constraints.{IsWellMade};
ghost use Rattle.template_core.specs.declared.constraint.Constraint.{Constraint as ConstraintOf};
ghost use Rattle.chain_cert.specs.Checks.{IsFirstFailure, IsWitnessOf, Suits};
ghost use Rattle.template_core.specs.Keeping.{KeepsOne};
ghost use Rattle.chain_cert.specs.Parts.{constraint_at, list_at};
ghost use Rattle.chain_cert.specs.Tables.{IsTableOf};

use crate::tables::table_for;
use decl_base::Trace;
use template_core::{Constraint, Table, class_of};

/// Whether a trace keeps a constraint, by its template's table.
fn keeps(table: &Table, constraint: &Constraint, trace: &[u32]) -> bool
    requires table { IsTableOf constraint.now.kind table.now }
    requires made { IsWellMade constraint.now.kind constraint.now.first constraint.now.second }
    ensures { IsTrue result ↔ KeepsOne constraint.now trace.now }
{
    let mut state = table.start;
    for event in trace {
        state = table.step(state, class_of(constraint, *event));
    }
    table.accepts_at(state)
}

/// The number of the first constraint that the trace doesn't keep.
pub(crate) fn first_unkept(model: &[Constraint], trace: &[u32]) -> Option<u32>
    requires made { All (λ (c : ConstraintOf). IsWellMade c.kind c.first c.second) model.now }
    requires few { length model.now ≤ standard.candidates }
    ensures { IsFirstFailure (λ i. KeepsOne (constraint_at model.now i) trace.now) (length model.now) result }
{
    for (place, constraint) in model.iter().enumerate() {
        if !keeps(&table_for(constraint), constraint, trace) {
            return Some(place as u32 + 1);
        }
    }
    None
}

/// How many witnesses, of the first `count`, stand before the first that keeps the constraint at a place and is its own, or breaks it and isn't.
fn suited(
    table: &Table,
    constraint: &Constraint,
    place: usize,
    witnesses: &[Trace],
    count: usize,
) -> usize
    requires table { IsTableOf constraint.now.kind table.now }
    requires made { IsWellMade constraint.now.kind constraint.now.first constraint.now.second }
    requires there { count ≤ length witnesses.now }
    ensures within { result ≤ count }
    ensures before { (i : ℕ) → i < result → Suits constraint.now place i (list_at witnesses.now i) }
    ensures at { result < count → Suits constraint.now place result (list_at witnesses.now result) → ⊥ }
{
    for at in 0..count {
        if keeps(table, constraint, witnesses[at].events()) == (at == place) {
            return at;
        }
    }
    count
}

/// The number of the first witness that doesn't keep all other constraints, or keeps its own.
/// Each template's table is made once, and read for all witnesses that are right so far.
pub(crate) fn first_no_witness(model: &[Constraint], witnesses: &[Trace]) -> Option<u32>
    requires made { All (λ (c : ConstraintOf). IsWellMade c.kind c.first c.second) model.now }
    requires few { length model.now ≤ standard.candidates }
    requires one_each { length witnesses.now ≡ length model.now }
    ensures { IsFirstFailure (IsWitnessOf model.now witnesses.now) (length model.now) result }
{
    let mut right = model.len();
    for (place, constraint) in model.iter().enumerate() {
        right = suited(&table_for(constraint), constraint, place, witnesses, right);
    }
    if right < model.len() {
        Some(right as u32 + 1)
    } else {
        None
    }
}
