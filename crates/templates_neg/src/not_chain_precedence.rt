use crate::NotChainSuccession;
use template_core::{Class, Counts, Kind, Template};

/// Directly before each b stands no a.
pub struct NotChainPrecedence;

/// The traces that keep it are those that keep NotChainSuccession; each b alone activates it.
impl Template for NotChainPrecedence {
    ghost use Rattle.std.proofs.Common.{refl};
    ghost use Rattle.template_core.specs.declared.kind.Kind.TheVariants.{NotChainPrecedence as the_kind};
    ghost use Rattle.templates_neg.specs.OneSidedLaws.{chain_precedence_kept, chain_precedence_meaning, chain_precedence_told};

    ghost meaning = { chain_precedence_meaning };

    ghost laws = { (chain_precedence_kept, chain_precedence_told, refl) };

    ghost ARITY = { 2 };

    const ARITY: u8 = 2;

    ghost KIND = { the_kind };

    const KIND: Kind = Kind::NotChainPrecedence;

    fn states() -> u8 {
        NotChainSuccession::states()
    }

    fn step(state: u8, class: Class) -> u8 {
        NotChainSuccession::step(state, class)
    }

    fn accepting(state: u8) -> bool {
        NotChainSuccession::accepting(state)
    }

    fn fulfilled(counts: &Counts) -> u64 {
        counts.second.occurrences - counts.back.previous
    }
}
