ghost use Rattle.std.specs.Prelude.{◌≡◌};
ghost use Rattle.template_core.specs.Groups.{group_of, takes};

use crate::Kind;

/// Which of the two activities of a relation template activates it. The other is its target.
#[derive(Clone, Copy, Debug, PartialEq, Eq)]
pub enum Activation {
    First,
    Second,
}

/// A group of templates.
#[derive(Clone, Copy, Debug, PartialEq, Eq)]
pub enum Group {
    /// One activity. The whole trace activates it.
    Existence,
    /// Two activities, of which one activates it and the other is its target.
    Relation(Activation),
    /// Two activities. Each activates it and asks for the other.
    Mutual,
    /// Two activities. Each activates it and forbids the other.
    Negative,
}

/// The group of a template.
pub fn group_of(kind: Kind) -> Group
    ensures { result ≡ group_of kind }
{
    match kind {
        Kind::Init
        | Kind::End
        | Kind::Participation
        | Kind::AtMostOne
        | Kind::Exactly { .. }
        | Kind::AtLeast { .. }
        | Kind::AtMost { .. } => Group::Existence,
        Kind::ChainSuccession | Kind::AlternateSuccession | Kind::Succession | Kind::CoExistence =>
            Group::Mutual,
        Kind::ChainResponse
        | Kind::AlternateResponse
        | Kind::Response
        | Kind::RespondedExistence
        | Kind::NotRespondedExistence
        | Kind::NotResponse
        | Kind::NotChainResponse => Group::Relation(Activation::First),
        Kind::ChainPrecedence
        | Kind::AlternatePrecedence
        | Kind::Precedence
        | Kind::NotPrecedence
        | Kind::NotChainPrecedence => Group::Relation(Activation::Second),
        Kind::NotCoExistence | Kind::NotSuccession | Kind::NotChainSuccession => Group::Negative,
    }
}

/// Whether a template has a constraint of its own over two ranks in this order.
pub fn takes(kind: Kind, first: u32, second: u32) -> bool
    ensures { result ≡ takes kind first second }
{
    if matches!(kind, Kind::CoExistence | Kind::NotCoExistence) {
        return first < second;
    }
    match group_of(kind) {
        Group::Existence => first == second,
        Group::Relation(_) | Group::Mutual | Group::Negative => first != second,
    }
}
