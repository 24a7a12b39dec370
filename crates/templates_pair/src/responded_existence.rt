use template_core::{Class, Counts, Kind, Template};

/// A trace with an a has a b.
pub struct RespondedExistence;

impl Template for RespondedExistence {
    ghost use Rattle.std.proofs.Common.{refl};
    ghost use Rattle.template_core.specs.declared.kind.Kind.TheVariants.{RespondedExistence as the_kind};
    ghost use Rattle.templates_pair.specs.RespondedExistence.{meaning};
    ghost use Rattle.templates_pair.specs.RespondedExistenceLaw.{kept, told};

    ghost meaning = { meaning };

    ghost laws = { (kept, told, refl) };

    ghost ARITY = { 2 };

    const ARITY: u8 = 2;

    ghost KIND = { the_kind };

    const KIND: Kind = Kind::RespondedExistence;

    fn states() -> u8 {
        3
    }

    fn step(state: u8, class: Class) -> u8 {
        match class {
            Class::First => if state == 2 { 2 } else { 1 },
            Class::Second => 2,
            Class::Other => state,
        }
    }

    fn accepting(state: u8) -> bool {
        state != 1
    }

    fn fulfilled(counts: &Counts) -> u64 {
        counts.first.occurrences - counts.onward.without
    }
}
