use template_core::{Class, Counts, Kind, Template};

/// No trace has both.
pub struct NotCoExistence;

impl Template for NotCoExistence {
    ghost use Rattle.std.proofs.Common.{refl};
    ghost use Rattle.template_core.specs.declared.kind.Kind.TheVariants.{NotCoExistence as the_kind};
    ghost use Rattle.templates_neg.specs.NotCoExistence.{meaning};
    ghost use Rattle.templates_neg.specs.NotCoExistenceLaw.{kept, told};

    ghost meaning = { meaning };

    ghost laws = { (kept, told, refl) };

    ghost ARITY = { 2 };

    const ARITY: u8 = 2;

    ghost KIND = { the_kind };

    const KIND: Kind = Kind::NotCoExistence;

    fn states() -> u8 {
        4
    }

    fn step(state: u8, class: Class) -> u8 {
        match class {
            Class::First => if state < 2 { 1 } else { 3 },
            Class::Second => if state == 0 || state == 2 { 2 } else { 3 },
            Class::Other => state,
        }
    }

    fn accepting(state: u8) -> bool {
        state != 3
    }

    fn fulfilled(counts: &Counts) -> u64 {
        counts.onward.without + counts.back.without
    }
}
