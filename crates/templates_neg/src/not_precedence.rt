use crate::NotSuccession;
use template_core::{Class, Counts, Kind, Template};

/// Before each b stands no a.
pub struct NotPrecedence;

/// The traces that keep it are those that keep NotSuccession; each b alone activates it.
impl Template for NotPrecedence {
    ghost use Rattle.std.proofs.Common.{refl};
    ghost use Rattle.template_core.specs.declared.kind.Kind.TheVariants.{NotPrecedence as the_kind};
    ghost use Rattle.templates_neg.specs.OneSidedLaws.{precedence_kept, precedence_meaning, precedence_told};

    ghost meaning = { precedence_meaning };

    ghost laws = { (precedence_kept, precedence_told, refl) };

    ghost ARITY = { 2 };

    const ARITY: u8 = 2;

    ghost KIND = { the_kind };

    const KIND: Kind = Kind::NotPrecedence;

    fn states() -> u8 {
        NotSuccession::states()
    }

    fn step(state: u8, class: Class) -> u8 {
        NotSuccession::step(state, class)
    }

    fn accepting(state: u8) -> bool {
        NotSuccession::accepting(state)
    }

    fn fulfilled(counts: &Counts) -> u64 {
        counts.back.no_earlier
    }
}
