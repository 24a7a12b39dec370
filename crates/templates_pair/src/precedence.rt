use template_core::{Class, Counts, Kind, Template};

/// Before each b stands an a.
pub struct Precedence;

impl Template for Precedence {
    ghost use Rattle.std.proofs.Common.{refl};
    ghost use Rattle.template_core.specs.declared.kind.Kind.TheVariants.{Precedence as the_kind};
    ghost use Rattle.templates_pair.specs.Precedence.{meaning};
    ghost use Rattle.templates_pair.specs.PrecedenceLaw.{kept, told};

    ghost meaning = { meaning };

    ghost laws = { (kept, told, refl) };

    ghost ARITY = { 2 };

    const ARITY: u8 = 2;

    ghost KIND = { the_kind };

    const KIND: Kind = Kind::Precedence;

    fn states() -> u8 {
        3
    }

    fn step(state: u8, class: Class) -> u8 {
        match class {
            Class::First => if state == 2 { 2 } else { 1 },
            Class::Second => if state == 1 { 1 } else { 2 },
            Class::Other => state,
        }
    }

    fn accepting(state: u8) -> bool {
        state != 2
    }

    fn fulfilled(counts: &Counts) -> u64 {
        counts.second.occurrences - counts.back.no_earlier
    }
}
