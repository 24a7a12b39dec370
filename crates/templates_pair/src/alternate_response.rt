use template_core::{Class, Counts, Kind, Template};

/// Each a is followed by a b, with no other a before it.
pub struct AlternateResponse;

impl Template for AlternateResponse {
    ghost use Rattle.std.proofs.Common.{refl};
    ghost use Rattle.template_core.specs.declared.kind.Kind.TheVariants.{AlternateResponse as the_kind};
    ghost use Rattle.templates_pair.specs.AlternateResponse.{meaning};
    ghost use Rattle.templates_pair.specs.AlternateResponseLaw.{kept, told};

    ghost meaning = { meaning };

    ghost laws = { (kept, told, refl) };

    ghost ARITY = { 2 };

    const ARITY: u8 = 2;

    ghost KIND = { the_kind };

    const KIND: Kind = Kind::AlternateResponse;

    fn states() -> u8 {
        3
    }

    fn step(state: u8, class: Class) -> u8 {
        match class {
            Class::First => if state == 0 { 1 } else { 2 },
            Class::Second => if state == 2 { 2 } else { 0 },
            Class::Other => state,
        }
    }

    fn accepting(state: u8) -> bool {
        state == 0
    }

    fn fulfilled(counts: &Counts) -> u64 {
        counts.first.occurrences - counts.onward.no_later - counts.onward.rep_later
    }
}
