use template_core::{Class, Counts, Kind, Template};

/// The number of events that are a is N.
pub struct Exactly<const N: u8>;

impl<const N: u8> Template for Exactly<N> {
    ghost use Rattle.std.proofs.Common.{refl};
    ghost use Rattle.template_core.specs.declared.kind.Kind.TheVariants.{Exactly as the_kind};
    ghost use Rattle.templates_unary.specs.Counted.{exactly};
    ghost use Rattle.templates_unary.specs.CountedLaw.{exactly_kept, exactly_told};

    ghost meaning = { exactly N };

    ghost laws = { (exactly_kept N, exactly_told N, refl) };

    ghost ARITY = { 1 };

    const ARITY: u8 = 1;

    ghost KIND = { the_kind N };

    const KIND: Kind = Kind::Exactly { n: N };

    fn states() -> u8 {
        N + 2
    }

    fn step(state: u8, class: Class) -> u8 {
        match class {
            Class::First => if state < N + 1 { state + 1 } else { state },
            Class::Second | Class::Other => state,
        }
    }

    fn accepting(state: u8) -> bool {
        state == N
    }

    fn fulfilled(counts: &Counts) -> u64 {
        counts.first.exact[(N - 1) as usize]
    }
}
