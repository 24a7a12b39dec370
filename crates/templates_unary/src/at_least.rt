use crate::counting::more_than;
use template_core::{Class, Counts, Kind, Template};

/// The number of events that are a is at least N.
pub struct AtLeast<const N: u8>;

impl<const N: u8> Template for AtLeast<N> {
    ghost use Rattle.std.proofs.Common.{refl};
    ghost use Rattle.template_core.specs.declared.kind.Kind.TheVariants.{AtLeast as the_kind};
    ghost use Rattle.templates_unary.specs.Counted.{at_least};
    ghost use Rattle.templates_unary.specs.CountedLaw.{at_least_kept, at_least_told};

    ghost meaning = { at_least N };

    ghost laws = { (at_least_kept N, at_least_told N, refl) };

    ghost ARITY = { 1 };

    const ARITY: u8 = 1;

    ghost KIND = { the_kind N };

    const KIND: Kind = Kind::AtLeast { n: N };

    fn states() -> u8 {
        N + 1
    }

    fn step(state: u8, class: Class) -> u8 {
        match class {
            Class::First => if state < N { state + 1 } else { state },
            Class::Second | Class::Other => state,
        }
    }

    fn accepting(state: u8) -> bool {
        state == N
    }

    fn fulfilled(counts: &Counts) -> u64 {
        more_than(&counts.first, N - 1)
    }
}
