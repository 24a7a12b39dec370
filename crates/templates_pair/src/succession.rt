use template_core::{Class, Counts, Kind, Template};

/// After each a stands a b, and before each b an a.
pub struct Succession;

impl Template for Succession {
    ghost use Rattle.std.proofs.Common.{refl};
    ghost use Rattle.template_core.specs.declared.kind.Kind.TheVariants.{Succession as the_kind};
    ghost use Rattle.templates_pair.specs.Succession.{meaning};
    ghost use Rattle.templates_pair.specs.SuccessionLaw.{kept, told};

    ghost meaning = { meaning };

    ghost laws = { (kept, told, refl) };

    ghost ARITY = { 2 };

    const ARITY: u8 = 2;

    ghost KIND = { the_kind };

    const KIND: Kind = Kind::Succession;

    fn states() -> u8 {
        4
    }

    fn step(state: u8, class: Class) -> u8 {
        match class {
            Class::First => if state == 2 { 2 } else { 1 },
            Class::Second => if state == 0 || state == 2 { 2 } else { 3 },
            Class::Other => state,
        }
    }

    fn accepting(state: u8) -> bool {
        state == 0 || state == 3
    }

    fn fulfilled(counts: &Counts) -> u64 {
        (counts.first.occurrences - counts.onward.no_later)
            + (counts.second.occurrences - counts.back.no_earlier)
    }
}
