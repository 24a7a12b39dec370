use crate::NotChainSuccession;
use template_core::{Class, Counts, Kind, Template};

/// Directly after each a stands no b.
pub struct NotChainResponse;

/// The traces that keep it are those that keep NotChainSuccession; each a alone activates it.
impl Template for NotChainResponse {
    ghost use Rattle.std.proofs.Common.{refl};
    ghost use Rattle.template_core.specs.declared.kind.Kind.TheVariants.{NotChainResponse as the_kind};
    ghost use Rattle.templates_neg.specs.OneSidedLaws.{chain_response_kept, chain_response_meaning, chain_response_told};

    ghost meaning = { chain_response_meaning };

    ghost laws = { (chain_response_kept, chain_response_told, refl) };

    ghost ARITY = { 2 };

    const ARITY: u8 = 2;

    ghost KIND = { the_kind };

    const KIND: Kind = Kind::NotChainResponse;

    fn states() -> u8 {
        NotChainSuccession::states()
    }

    fn step(state: u8, class: Class) -> u8 {
        NotChainSuccession::step(state, class)
    }

    fn accepting(state: u8) -> bool {
        NotChainSuccession::accepting(state)
    }

    fn fulfilled(counts: &Counts) -> u64 {
        counts.first.occurrences - counts.onward.next
    }
}
