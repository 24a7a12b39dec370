ghost use Rattle.std.specs.Prelude.{◌≡◌, List, ℕ, OnOk, IfErr, vec_len};
ghost use Rattle.std.specs.List.{AllByRecursion};
ghost use Rattle.template_core.specs.Constraints.{number_of};
ghost use Rattle.scoring.specs.Priority.{constraint_cmp, priority_cmp, in_order};
ghost use Rattle.scoring.specs.Scores.{HasScores, IsScored};

use crate::Scored;
use decl_base::Refusal;
use std::cmp::Ordering;
use template_core::{Constraint, Kind, number_of};

/// Puts a log's scored constraints into the order of priority.
pub(crate) fn sort(list: &mut Vec<Scored>) -> Result<(), Refusal>
    ensures order { OnOk result ((log : List (List ℕ)) → AllByRecursion (IsScored log) list.old.items
        → list.new.items ≡ in_order priority_cmp list.old.items) }
    ensures length { vec_len list.new ≡ vec_len list.old }
    ensures err { IfErr result (λ e. e ≡ Refusal.Memory) }
{
    list.sort_by(|a, b| by_priority(a, b))?;
    Ok(())
}

/// Which of two comes first: greater scores, then the smaller number, then smaller ranks.
fn by_priority(a: &Scored, b: &Scored) -> Ordering
    ensures order { result ≡ priority_cmp a.now b.now }
    ensures scores { HasScores a.now }
    ensures other_scores { HasScores b.now }
{
    b.support
        .cmp(&a.support)
        .then(b.confidence.cmp(&a.confidence))
        .then(b.interest.cmp(&a.interest))
        .then(by_number(&a.constraint, &b.constraint))
}

/// The smaller template number first, then the smaller ranks.
fn by_number(a: &Constraint, b: &Constraint) -> Ordering
    ensures { result ≡ constraint_cmp a.now b.now }
{
    number(a.kind)
        .cmp(&number(b.kind))
        .then(a.first.cmp(&b.first))
        .then(a.second.cmp(&b.second))
}

/// A template's number. Each kind has one here, since a sort may compare any two: of a count that no template has, what
/// the template's formula gives.
fn number(kind: Kind) -> u16
    ensures { result ≡ number_of kind }
{
    match kind {
        Kind::Exactly { n } => 18 + u16::from(n),
        Kind::AtLeast { n } => 37_u16.saturating_sub(u16::from(n)),
        Kind::AtMost { n } => 36 + u16::from(n),
        _ => u16::from(number_of(kind)),
    }
}
