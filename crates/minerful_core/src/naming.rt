//! Models over the names of one or two of them.

ghost use Rattle.std.specs.Prelude.{◌≡◌, ◌≤◌, ◌+◌, ◌*◌, fold, length, All, IfOk, IfErr, OnOk};
ghost use Rattle.decl_base.specs.Limits.{standard};
ghost use Rattle.event_log.specs.Logs.{place_of, with_name};
ghost use Rattle.template_core.specs.Constraints.{IsWellMadeFor};
ghost use Rattle.minerful_core.specs.Models.{constraints_over, names_of_both, put_over, symbols_of};

use decl_base::{Limits, Refusal};
use event_log::Alphabet;
use model_json::KnownModel;
use std::alloc::Global;
use template_core::Constraint;

/// The names of two models, each once, in the order of their bytes.
pub(crate) fn names_of_both(
    alloc: Global,
    first: &KnownModel,
    second: &KnownModel,
) -> Result<Alphabet, Refusal>
    requires first { length first.now.names ≤ standard.activities }
    requires second { length second.now.names ≤ standard.activities }
    ensures names { IfOk result (λ names. names.names ≡ names_of_both first.now second.now) }
    ensures err { IfErr result (λ e. e ≡ Refusal.Memory) }
{
    let mut names = Alphabet::new(alloc, 2 * Limits::standard().activities);
    add_names(&mut names, first.names())?;
    add_names(&mut names, second.names())?;
    names.in_order()
}

/// Adds those names that are new, for which there is room.
fn add_names(names: &mut Alphabet, more: &Alphabet) -> Result<(), Refusal>
    requires { length names.old.names + length more.now.names ≤ names.old.limit }
    ensures ok { OnOk result (names.new ≡ record { names = fold with_name names.old.names more.now.names; limit = names.old.limit }) }
    ensures err { IfErr result (λ e. e ≡ Refusal.Memory) }
{
    for id in 0..more.len() {
        names.add(more.name(id))?;
    }
    Ok(())
}

/// A symbol for each name, and one behind them for all that has no name.
pub(crate) fn symbols_of(names: &Alphabet) -> u32
    requires { length names.now.names ≤ 2 * standard.activities }
    ensures { result ≡ symbols_of names.now.names }
{
    names.len() + 1
}

/// The constraints of a model over the places of these names.
pub(crate) fn constraints_over(
    alloc: Global,
    names: &Alphabet,
    model: &KnownModel,
) -> Result<Vec<Constraint>, Refusal>
    requires made { All (IsWellMadeFor (length model.now.names)) model.now.constraints }
    ensures list { IfOk result (λ list. list.items ≡ constraints_over names.now.names model.now) }
    ensures err { IfErr result (λ e. e ≡ Refusal.Memory) }
{
    let constraints = model.constraints();
    let mut list = Vec::with_capacity(alloc, constraints.len())?;
    for k in 0..constraints.len() {
        list.push(put_over(names, model, &constraints[k]))?;
    }
    Ok(list)
}

/// A constraint of a model over the places of these names.
fn put_over(names: &Alphabet, model: &KnownModel, constraint: &Constraint) -> Constraint
    requires { IsWellMadeFor (length model.now.names) constraint.now }
    ensures { result ≡ put_over names.now.names model.now constraint.now }
{
    Constraint {
        kind: constraint.kind,
        first: place_among(names, model.names().name(constraint.first)),
        second: place_among(names, model.names().name(constraint.second)),
    }
}

/// The place of a name, or how many names there are where it isn't one of them.
fn place_among(names: &Alphabet, name: &str) -> u32
    ensures { result ≡ place_of names.now.names name.now }
{
    match names.find(name) {
        Some(id) => id,
        None => names.len(),
    }
}
