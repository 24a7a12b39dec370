ghost use Rattle.std.specs.Prelude.{◌↔◌, ◌<◌, All, IsTrue};
ghost use Rattle.template_core.specs.Constraints.{IsTemplate, IsWellMadeFor, IsWellMadeIn};
ghost use Rattle.chain_cert.specs.Forms.{Holds, IsAscending};
ghost use Rattle.chain_cert.specs.Traces.{IsTrace};

use crate::Dropped;
use decl_base::Trace;
use template_core::{Constraint, Group, Kind, group_of};

/// Whether a kind is a template: the number of a counted one is 1 to 9.
fn is_template(kind: Kind) -> bool
    ensures { IsTrue result ↔ IsTemplate kind }
{
    match kind {
        Kind::Exactly { n } => 1 <= n && n <= 9,
        Kind::AtLeast { n } => 1 <= n && n <= 9,
        Kind::AtMost { n } => 1 <= n && n <= 9,
        _ => true,
    }
}

/// Whether the templates of a group take the two activities: one alone, or two different ones.
fn are_taken(group: Group, first: u32, second: u32) -> bool
    ensures { IsTrue result ↔ IsWellMadeIn group first second }
{
    match group {
        Group::Existence => first == second,
        Group::Relation(_) | Group::Mutual | Group::Negative => first != second,
    }
}

/// Whether a constraint is one over the symbols.
fn is_well_made(constraint: &Constraint, symbols: u32) -> bool
    ensures { IsTrue result ↔ IsWellMadeFor symbols constraint.now }
{
    let Constraint {
        kind,
        first,
        second,
    } = *constraint;
    first < symbols
        && second < symbols
        && is_template(kind)
        && are_taken(group_of(kind), first, second)
}

/// Whether each constraint is one over the symbols.
pub(crate) fn are_well_made(list: &[Constraint], symbols: u32) -> bool
    ensures { IsTrue result ↔ All (IsWellMadeFor symbols) list.now }
{
    for constraint in list {
        if !is_well_made(constraint, symbols) {
            return false;
        }
    }
    true
}

/// Whether each dropped constraint is one over the symbols.
pub(crate) fn dropped_are_well_made(list: &[Dropped], symbols: u32) -> bool
    ensures { IsTrue result ↔ All (λ d. IsWellMadeFor symbols d.constraint) list.now }
{
    for dropped in list {
        if !is_well_made(&dropped.constraint, symbols) {
            return false;
        }
    }
    true
}

/// Whether a trace is one over the symbols.
pub(crate) fn is_over(trace: &[u32], symbols: u32) -> bool
    ensures { IsTrue result ↔ IsTrace symbols trace.now }
{
    for event in trace {
        if *event >= symbols {
            return false;
        }
    }
    true
}

/// Whether each trace is one over the symbols.
pub(crate) fn are_over(traces: &[Trace], symbols: u32) -> bool
    ensures { IsTrue result ↔ All (IsTrace symbols) traces.now }
{
    for trace in traces {
        if !is_over(trace.events(), symbols) {
            return false;
        }
    }
    true
}

/// Whether each number is below a bound.
pub(crate) fn are_below(numbers: &[u32], bound: usize) -> bool
    ensures { IsTrue result ↔ All (λ n. n < bound) numbers.now }
{
    for number in numbers {
        if *number as usize >= bound {
            return false;
        }
    }
    true
}

/// Whether each is before the next, where the first number that differs decides.
pub(crate) fn is_ascending<const N: usize>(list: &[[u32; N]]) -> bool
    ensures { IsTrue result ↔ IsAscending list.now }
{
    for at in 1..list.len() {
        if list[at - 1].cmp(&list[at]).is_ge() {
            return false;
        }
    }
    true
}

/// Whether the list, which is ascending, has the element.
pub(crate) fn has<const N: usize>(list: &[[u32; N]], wanted: &[u32; N]) -> bool
    requires { IsAscending list.now }
    ensures { IsTrue result ↔ Holds list.now wanted.now }
{
    list.binary_search(wanted).is_ok()
}
