use crate::NotSuccession;
use template_core::{Class, Counts, Kind, Template};

/// After each a stands no b.
pub struct NotResponse;

/// The traces that keep it are those that keep NotSuccession; each a alone activates it.
impl Template for NotResponse {
    ghost use Rattle.std.proofs.Common.{refl};
    ghost use Rattle.template_core.specs.declared.kind.Kind.TheVariants.{NotResponse as the_kind};
    ghost use Rattle.templates_neg.specs.OneSidedLaws.{response_kept, response_meaning, response_told};

    ghost meaning = { response_meaning };

    ghost laws = { (response_kept, response_told, refl) };

    ghost ARITY = { 2 };

    const ARITY: u8 = 2;

    ghost KIND = { the_kind };

    const KIND: Kind = Kind::NotResponse;

    fn states() -> u8 {
        NotSuccession::states()
    }

    fn step(state: u8, class: Class) -> u8 {
        NotSuccession::step(state, class)
    }

    fn accepting(state: u8) -> bool {
        NotSuccession::accepting(state)
    }

    fn fulfilled(counts: &Counts) -> u64 {
        counts.onward.no_later
    }
}
