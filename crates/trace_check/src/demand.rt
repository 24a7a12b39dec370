ghost use Rattle.std.specs.Prelude.{◌≡◌};
ghost use Rattle.trace_check.specs.Demands.{demands_of};

use template_core::Kind;

/// What an event that activates a constraint asks for: where the other activity's events stand.
#[derive(Clone, Copy, Debug, PartialEq, Eq)]
pub enum Demand {
    /// Anywhere in the trace.
    Present,
    /// Behind it.
    Later,
    /// Before it.
    Earlier,
    /// Directly behind it.
    Next,
    /// Directly before it.
    Previous,
    /// Behind it, with none of its own activity between.
    AlternatesLater,
    /// Before it, with none of its own activity between.
    AlternatesEarlier,
    /// Nowhere.
    Absent,
    /// Not behind it.
    NoneLater,
    /// Not before it.
    NoneEarlier,
    /// Not directly behind it.
    NotNext,
    /// Not directly before it.
    NotPrevious,
}

/// What an event of each activity asks for. None where it doesn't activate the constraint.
#[derive(Clone, Copy, Debug)]
pub struct Demands {
    pub first: Option<Demand>,
    pub second: Option<Demand>,
}

/// What the events of its two activities ask for, where they activate a constraint of the template.
pub fn demands_of(kind: Kind) -> Demands
    ensures { result ≡ demands_of kind }
{
    match kind {
        Kind::Init | Kind::End | Kind::Participation | Kind::AtMostOne => asks(None, None),
        Kind::Exactly { .. } | Kind::AtLeast { .. } | Kind::AtMost { .. } => asks(None, None),
        Kind::ChainSuccession => asks(Some(Demand::Next), Some(Demand::Previous)),
        Kind::AlternateSuccession => asks(
            Some(Demand::AlternatesLater),
            Some(Demand::AlternatesEarlier),
        ),
        Kind::Succession => asks(Some(Demand::Later), Some(Demand::Earlier)),
        Kind::CoExistence => asks(Some(Demand::Present), Some(Demand::Present)),
        Kind::ChainResponse => asks(Some(Demand::Next), None),
        Kind::AlternateResponse => asks(Some(Demand::AlternatesLater), None),
        Kind::Response => asks(Some(Demand::Later), None),
        Kind::ChainPrecedence => asks(None, Some(Demand::Previous)),
        Kind::AlternatePrecedence => asks(None, Some(Demand::AlternatesEarlier)),
        Kind::Precedence => asks(None, Some(Demand::Earlier)),
        Kind::RespondedExistence => asks(Some(Demand::Present), None),
        Kind::NotCoExistence => asks(Some(Demand::Absent), Some(Demand::Absent)),
        Kind::NotSuccession => asks(Some(Demand::NoneLater), Some(Demand::NoneEarlier)),
        Kind::NotChainSuccession => asks(Some(Demand::NotNext), Some(Demand::NotPrevious)),
        Kind::NotRespondedExistence => asks(Some(Demand::Absent), None),
        Kind::NotResponse => asks(Some(Demand::NoneLater), None),
        Kind::NotPrecedence => asks(None, Some(Demand::NoneEarlier)),
        Kind::NotChainResponse => asks(Some(Demand::NotNext), None),
        Kind::NotChainPrecedence => asks(None, Some(Demand::NotPrevious)),
    }
}

fn asks(first: Option<Demand>, second: Option<Demand>) -> Demands
    ensures { result ≡ record { first = first; second = second } }
{
    Demands { first, second }
}
