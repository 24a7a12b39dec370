use crate::counting::more_than;
use template_core::{Class, Counts, Kind, Template};

/// The number of events that are a is at most N.
pub struct AtMost<const N: u8>;

impl<const N: u8> Template for AtMost<N> {
    ghost use Rattle.std.proofs.Common.{refl};
    ghost use Rattle.template_core.specs.declared.kind.Kind.TheVariants.{AtMost as the_kind};
    ghost use Rattle.templates_unary.specs.Counted.{at_most};
    ghost use Rattle.templates_unary.specs.CountedLaw.{at_most_kept, at_most_told};

    ghost meaning = { at_most N };

    ghost laws = { (at_most_kept N, at_most_told N, refl) };

    ghost ARITY = { 1 };

    const ARITY: u8 = 1;

    ghost KIND = { the_kind N };

    const KIND: Kind = Kind::AtMost { n: N };

    fn states() -> u8 {
        N + 2
    }

    fn step(state: u8, class: Class) -> u8 {
        match class {
            Class::First => if state < N + 1 { state + 1 } else { state },
            Class::Second | Class::Other => state,
        }
    }

    fn accepting(state: u8) -> bool {
        state != N + 1
    }

    fn fulfilled(counts: &Counts) -> u64 {
        counts.traces - more_than(&counts.first, N)
    }
}
