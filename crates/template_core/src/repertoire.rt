ghost use Rattle.std.specs.Prelude.{◌≡◌};
ghost use Rattle.template_core.specs.Constraints.{IsTemplate};
ghost use Rattle.template_core.specs.Repertoires.{is_of, is_candidate};

use crate::{Kind, number_of};

/// The number of the last template of the first repertoire.
const LAST_OF_FIRST: u8 = 18;

/// A set of templates. The second has all of them.
#[derive(Clone, Copy, Debug, PartialEq, Eq)]
pub enum Repertoire {
    First,
    Second,
}

/// Whether the repertoire has the template.
pub fn is_of(repertoire: Repertoire, kind: Kind) -> bool
    requires { IsTemplate kind }
    ensures { result ≡ is_of repertoire kind }
{
    match repertoire {
        Repertoire::First => number_of(kind) <= LAST_OF_FIRST,
        Repertoire::Second => true,
    }
}

/// Whether the repertoire's constraints of the template are mined: those of `AtLeast` and `AtMost` of one event, which
/// mean `Participation` and `AtMostOne`, are not.
pub fn is_candidate(repertoire: Repertoire, kind: Kind) -> bool
    requires { IsTemplate kind }
    ensures { result ≡ is_candidate repertoire kind }
{
    match kind {
        Kind::AtLeast { n: 1 } | Kind::AtMost { n: 1 } => false,
        _ => is_of(repertoire, kind),
    }
}
