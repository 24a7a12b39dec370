use template_core::{Class, Counts, Kind, Template};

/// Before each b stands an a, with no other b after it.
pub struct AlternatePrecedence;

impl Template for AlternatePrecedence {
    ghost use Rattle.std.proofs.Common.{refl};
    ghost use Rattle.template_core.specs.declared.kind.Kind.TheVariants.{AlternatePrecedence as the_kind};
    ghost use Rattle.templates_pair.specs.AlternatePrecedence.{meaning};
    ghost use Rattle.templates_pair.specs.AlternatePrecedenceLaw.{kept, told};

    ghost meaning = { meaning };

    ghost laws = { (kept, told, refl) };

    ghost ARITY = { 2 };

    const ARITY: u8 = 2;

    ghost KIND = { the_kind };

    const KIND: Kind = Kind::AlternatePrecedence;

    fn states() -> u8 {
        3
    }

    fn step(state: u8, class: Class) -> u8 {
        match class {
            Class::First => if state == 2 { 2 } else { 1 },
            Class::Second => if state == 1 { 0 } else { 2 },
            Class::Other => state,
        }
    }

    fn accepting(state: u8) -> bool {
        state != 2
    }

    fn fulfilled(counts: &Counts) -> u64 {
        counts.second.occurrences - counts.back.no_earlier - counts.back.rep_earlier
    }
}
