use crate::NotCoExistence;
use template_core::{Class, Counts, Kind, Template};

/// A trace with an a has no b.
pub struct NotRespondedExistence;

/// The traces that keep it are those that keep NotCoExistence; each a alone activates it.
impl Template for NotRespondedExistence {
    ghost use Rattle.std.proofs.Common.{refl};
    ghost use Rattle.template_core.specs.declared.kind.Kind.TheVariants.{NotRespondedExistence as the_kind};
    ghost use Rattle.templates_neg.specs.OneSidedLaws.{responded_existence_kept, responded_existence_meaning, responded_existence_told};

    ghost meaning = { responded_existence_meaning };

    ghost laws = { (responded_existence_kept, responded_existence_told, refl) };

    ghost ARITY = { 2 };

    const ARITY: u8 = 2;

    ghost KIND = { the_kind };

    const KIND: Kind = Kind::NotRespondedExistence;

    fn states() -> u8 {
        NotCoExistence::states()
    }

    fn step(state: u8, class: Class) -> u8 {
        NotCoExistence::step(state, class)
    }

    fn accepting(state: u8) -> bool {
        NotCoExistence::accepting(state)
    }

    fn fulfilled(counts: &Counts) -> u64 {
        counts.onward.without
    }
}
