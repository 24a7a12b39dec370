ghost use Rattle.std.specs.Prelude.{◌≡◌};
ghost use Rattle.template_core.specs.Constraints.{number_of, IsTemplate};

/// A template. Their order is that of the template numbers, from 1; of `AtLeast`, 9 comes first and 1 last.
/// The number of events in a counted template is 1 to 9.
#[derive(Clone, Copy, Debug, PartialEq, Eq)]
pub enum Kind {
    Init,
    End,
    Participation,
    AtMostOne,
    ChainSuccession,
    AlternateSuccession,
    Succession,
    CoExistence,
    ChainResponse,
    AlternateResponse,
    Response,
    ChainPrecedence,
    AlternatePrecedence,
    Precedence,
    RespondedExistence,
    NotCoExistence,
    NotSuccession,
    NotChainSuccession,
    Exactly { n: u8 },
    AtLeast { n: u8 },
    AtMost { n: u8 },
    NotRespondedExistence,
    NotResponse,
    NotPrecedence,
    NotChainResponse,
    NotChainPrecedence,
}

/// A template's number.
pub fn number_of(kind: Kind) -> u8
    requires { IsTemplate kind }
    ensures { result ≡ number_of kind }
{
    match kind {
        Kind::Init => 1,
        Kind::End => 2,
        Kind::Participation => 3,
        Kind::AtMostOne => 4,
        Kind::ChainSuccession => 5,
        Kind::AlternateSuccession => 6,
        Kind::Succession => 7,
        Kind::CoExistence => 8,
        Kind::ChainResponse => 9,
        Kind::AlternateResponse => 10,
        Kind::Response => 11,
        Kind::ChainPrecedence => 12,
        Kind::AlternatePrecedence => 13,
        Kind::Precedence => 14,
        Kind::RespondedExistence => 15,
        Kind::NotCoExistence => 16,
        Kind::NotSuccession => 17,
        Kind::NotChainSuccession => 18,
        Kind::Exactly { n } => 18 + n,
        Kind::AtLeast { n } => 37 - n,
        Kind::AtMost { n } => 36 + n,
        Kind::NotRespondedExistence => 46,
        Kind::NotResponse => 47,
        Kind::NotPrecedence => 48,
        Kind::NotChainResponse => 49,
        Kind::NotChainPrecedence => 50,
    }
}
