ghost use Rattle.std.specs.Prelude.{◌≡◌, ◌↔◌, ℕ, List, IsTrue, nat_eq};
ghost use Rattle.std.specs.List.{filter_map};
ghost use Rattle.template_core.specs.Constraints.{IsWellMade};
ghost use Rattle.template_core.specs.Repertoire.{Keeps};
ghost use Rattle.template_core.specs.declared.constraint.Constraint.{Constraint as ConstraintOf};
ghost use Rattle.template_set.specs.Hierarchy.{listed_below, IsOver, IsStronger};

use template_core::{Constraint, Kind};

/// Whether the hierarchy puts the first constraint above the second.
pub fn stronger(above: &Constraint, below: &Constraint) -> bool
    ensures { IsTrue result ↔ IsStronger above.now below.now }
{
    are_over_the_same(above, below) && leads_down(above, below)
}

/// Whether two constraints are over the same activities, in the one order or the other.
fn are_over_the_same(above: &Constraint, below: &Constraint) -> bool
    ensures { IsTrue result ↔ IsOver above.now.first above.now.second below.now }
{
    (above.first == below.first && above.second == below.second)
        || (above.first == below.second && above.second == below.first)
}

/// The same by the list alone: what stands directly below the one is the other, or leads down to it.
fn leads_down(above: &Constraint, below: &Constraint) -> bool
    ensures { IsTrue result ↔ IsStronger above.now below.now }
{
    for next in directly_below(above) {
        if let Some(next) = next {
            if are_same(&next, below) || leads_down(&next, below) {
                return true;
            }
        }
    }
    false
}

/// Whether two constraints are the same one.
fn are_same(one: &Constraint, other: &Constraint) -> bool
    ensures { IsTrue result ↔ (one.now ≡ other.now) }
{
    one == other
}

/// What the list of the hierarchy has directly below a constraint.
fn directly_below(above: &Constraint) -> [Option<Constraint>; 4]
    ensures { filter_map (λ next. next) result ≡ listed_below above.now.kind above.now.first above.now.second }
{
    let onward = |kind| {
        Some(Constraint {
            kind,
            first: above.first,
            second: above.second,
        })
    };
    let back = |kind| {
        Some(Constraint {
            kind,
            first: above.second,
            second: above.first,
        })
    };
    match above.kind {
        Kind::Init | Kind::End => [onward(Kind::Participation), None, None, None],
        Kind::ChainSuccession => [
            onward(Kind::AlternateSuccession),
            onward(Kind::ChainResponse),
            onward(Kind::ChainPrecedence),
            None,
        ],
        Kind::AlternateSuccession => [
            onward(Kind::Succession),
            onward(Kind::AlternateResponse),
            onward(Kind::AlternatePrecedence),
            None,
        ],
        Kind::Succession => [
            onward(Kind::CoExistence),
            back(Kind::CoExistence),
            onward(Kind::Response),
            onward(Kind::Precedence),
        ],
        Kind::CoExistence => [
            onward(Kind::RespondedExistence),
            back(Kind::RespondedExistence),
            None,
            None,
        ],
        Kind::ChainResponse => [onward(Kind::AlternateResponse), None, None, None],
        Kind::AlternateResponse => [onward(Kind::Response), None, None, None],
        Kind::Response => [onward(Kind::RespondedExistence), None, None, None],
        Kind::ChainPrecedence => [onward(Kind::AlternatePrecedence), None, None, None],
        Kind::AlternatePrecedence => [onward(Kind::Precedence), None, None, None],
        Kind::Precedence => [back(Kind::RespondedExistence), None, None, None],
        Kind::NotCoExistence => [
            onward(Kind::NotSuccession),
            back(Kind::NotSuccession),
            onward(Kind::NotRespondedExistence),
            back(Kind::NotRespondedExistence),
        ],
        Kind::NotSuccession => [
            onward(Kind::NotChainSuccession),
            onward(Kind::NotResponse),
            onward(Kind::NotPrecedence),
            None,
        ],
        Kind::NotChainSuccession => [
            onward(Kind::NotChainResponse),
            onward(Kind::NotChainPrecedence),
            None,
            None,
        ],
        Kind::Exactly { n } => [
            onward(Kind::AtLeast { n }),
            onward(Kind::AtMost { n }),
            None,
            None,
        ],
        Kind::AtLeast { n: 1 } => [onward(Kind::Participation), None, None, None],
        Kind::AtLeast { n: n @ 2.. } => [onward(Kind::AtLeast { n: n - 1 }), None, None, None],
        Kind::AtMost { n: 1 } => [onward(Kind::AtMostOne), None, None, None],
        Kind::AtMostOne => [onward(Kind::AtMost { n: 2 }), None, None, None],
        Kind::AtMost { n: n @ 2..9 } => [onward(Kind::AtMost { n: n + 1 }), None, None, None],
        Kind::NotRespondedExistence => [
            onward(Kind::NotResponse),
            back(Kind::NotPrecedence),
            None,
            None,
        ],
        Kind::NotResponse => [onward(Kind::NotChainResponse), None, None, None],
        Kind::NotPrecedence => [onward(Kind::NotChainPrecedence), None, None, None],
        Kind::Participation
        | Kind::RespondedExistence
        | Kind::NotChainResponse
        | Kind::NotChainPrecedence
        | Kind::AtLeast { n: 0 }
        | Kind::AtMost { .. } => [None; 4],
    }
}

/// A trace that keeps a constraint keeps each one below it.
pub fn stronger_keeps()
    ensures { (c d : ConstraintOf) → IsStronger c d → IsWellMade c.kind c.first c.second → (trace : List ℕ)
        → Keeps nat_eq c.kind c.first c.second trace → Keeps nat_eq d.kind d.first d.second trace }
{}

/// No constraint stands above itself.
pub fn stronger_is_strict()
    ensures { (c : ConstraintOf) → IsStronger c c → ⊥ }
{}
