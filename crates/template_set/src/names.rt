ghost use Rattle.std.specs.Prelude.{◌≡◌, ◌≢◌, MatchOption, All};
ghost use Rattle.template_core.specs.Constraints.{IsTemplate};
ghost use Rattle.template_core.specs.declared.kind.Kind.{Kind as KindOf};
ghost use Rattle.template_set.specs.Names.{all_kinds, name_of};

use template_core::Kind;

/// The name of a template.
pub fn name(kind: Kind) -> &'static str
    requires { IsTemplate kind }
    ensures { result.now ≡ name_of kind }
{
    match kind {
        Kind::Init => "Init",
        Kind::End => "End",
        Kind::Participation => "Participation",
        Kind::AtMostOne => "AtMostOne",
        Kind::ChainSuccession => "ChainSuccession",
        Kind::AlternateSuccession => "AlternateSuccession",
        Kind::Succession => "Succession",
        Kind::CoExistence => "CoExistence",
        Kind::ChainResponse => "ChainResponse",
        Kind::AlternateResponse => "AlternateResponse",
        Kind::Response => "Response",
        Kind::ChainPrecedence => "ChainPrecedence",
        Kind::AlternatePrecedence => "AlternatePrecedence",
        Kind::Precedence => "Precedence",
        Kind::RespondedExistence => "RespondedExistence",
        Kind::NotCoExistence => "NotCoExistence",
        Kind::NotSuccession => "NotSuccession",
        Kind::NotChainSuccession => "NotChainSuccession",
        Kind::Exactly { n } => match n {
            1 => "Exactly1",
            2 => "Exactly2",
            3 => "Exactly3",
            4 => "Exactly4",
            5 => "Exactly5",
            6 => "Exactly6",
            7 => "Exactly7",
            8 => "Exactly8",
            _ => "Exactly9",
        },
        Kind::AtLeast { n } => match n {
            1 => "AtLeast1",
            2 => "AtLeast2",
            3 => "AtLeast3",
            4 => "AtLeast4",
            5 => "AtLeast5",
            6 => "AtLeast6",
            7 => "AtLeast7",
            8 => "AtLeast8",
            _ => "AtLeast9",
        },
        Kind::AtMost { n } => match n {
            1 => "AtMost1",
            2 => "AtMost2",
            3 => "AtMost3",
            4 => "AtMost4",
            5 => "AtMost5",
            6 => "AtMost6",
            7 => "AtMost7",
            8 => "AtMost8",
            _ => "AtMost9",
        },
        Kind::NotRespondedExistence => "NotRespondedExistence",
        Kind::NotResponse => "NotResponse",
        Kind::NotPrecedence => "NotPrecedence",
        Kind::NotChainResponse => "NotChainResponse",
        Kind::NotChainPrecedence => "NotChainPrecedence",
    }
}

/// All templates, in the order of their numbers.
pub fn kinds() -> [Kind; 50]
    ensures all { result ≡ all_kinds }
    ensures templates { All IsTemplate result }
{
    [
        Kind::Init,
        Kind::End,
        Kind::Participation,
        Kind::AtMostOne,
        Kind::ChainSuccession,
        Kind::AlternateSuccession,
        Kind::Succession,
        Kind::CoExistence,
        Kind::ChainResponse,
        Kind::AlternateResponse,
        Kind::Response,
        Kind::ChainPrecedence,
        Kind::AlternatePrecedence,
        Kind::Precedence,
        Kind::RespondedExistence,
        Kind::NotCoExistence,
        Kind::NotSuccession,
        Kind::NotChainSuccession,
        Kind::Exactly { n: 1 },
        Kind::Exactly { n: 2 },
        Kind::Exactly { n: 3 },
        Kind::Exactly { n: 4 },
        Kind::Exactly { n: 5 },
        Kind::Exactly { n: 6 },
        Kind::Exactly { n: 7 },
        Kind::Exactly { n: 8 },
        Kind::Exactly { n: 9 },
        Kind::AtLeast { n: 9 },
        Kind::AtLeast { n: 8 },
        Kind::AtLeast { n: 7 },
        Kind::AtLeast { n: 6 },
        Kind::AtLeast { n: 5 },
        Kind::AtLeast { n: 4 },
        Kind::AtLeast { n: 3 },
        Kind::AtLeast { n: 2 },
        Kind::AtLeast { n: 1 },
        Kind::AtMost { n: 1 },
        Kind::AtMost { n: 2 },
        Kind::AtMost { n: 3 },
        Kind::AtMost { n: 4 },
        Kind::AtMost { n: 5 },
        Kind::AtMost { n: 6 },
        Kind::AtMost { n: 7 },
        Kind::AtMost { n: 8 },
        Kind::AtMost { n: 9 },
        Kind::NotRespondedExistence,
        Kind::NotResponse,
        Kind::NotPrecedence,
        Kind::NotChainResponse,
        Kind::NotChainPrecedence,
    ]
}

/// The template with this name; None where the text is no template's name.
pub fn kind_of(text: &str) -> Option<Kind>
    ensures { MatchOption result ((kind : KindOf) → IsTemplate kind → text.now ≢ name_of kind)
        (λ kind. IsTemplate kind × (text.now ≡ name_of kind)) }
{
    for kind in kinds() {
        if name(kind) == text {
            return Some(kind);
        }
    }
    None
}
