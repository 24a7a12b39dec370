use template_core::{Class, Counts, Kind, Template};

/// Each a is followed by a b with no a between, and each b follows an a with no b between.
pub struct AlternateSuccession;

impl Template for AlternateSuccession {
    ghost use Rattle.std.proofs.Common.{refl};
    ghost use Rattle.template_core.specs.declared.kind.Kind.TheVariants.{AlternateSuccession as the_kind};
    ghost use Rattle.templates_pair.specs.AlternateSuccession.{meaning};
    ghost use Rattle.templates_pair.specs.AlternateSuccessionLaw.{kept, told};

    ghost meaning = { meaning };

    ghost laws = { (kept, told, refl) };

    ghost ARITY = { 2 };

    const ARITY: u8 = 2;

    ghost KIND = { the_kind };

    const KIND: Kind = Kind::AlternateSuccession;

    fn states() -> u8 {
        3
    }

    fn step(state: u8, class: Class) -> u8 {
        match class {
            Class::First => if state == 0 { 1 } else { 2 },
            Class::Second => if state == 1 { 0 } else { 2 },
            Class::Other => state,
        }
    }

    fn accepting(state: u8) -> bool {
        state == 0
    }

    fn fulfilled(counts: &Counts) -> u64 {
        (counts.first.occurrences - counts.onward.no_later - counts.onward.rep_later)
            + (counts.second.occurrences - counts.back.no_earlier - counts.back.rep_earlier)
    }
}
