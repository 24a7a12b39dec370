use template_core::{Class, Counts, Kind, Template};

/// Each a is followed by a b.
pub struct Response;

impl Template for Response {
    ghost use Rattle.std.proofs.Common.{refl};
    ghost use Rattle.template_core.specs.declared.kind.Kind.TheVariants.{Response as the_kind};
    ghost use Rattle.templates_pair.specs.Response.{meaning};
    ghost use Rattle.templates_pair.specs.ResponseLaw.{kept, told};

    ghost meaning = { meaning };

    ghost laws = { (kept, told, refl) };

    ghost ARITY = { 2 };

    const ARITY: u8 = 2;

    ghost KIND = { the_kind };

    const KIND: Kind = Kind::Response;

    fn states() -> u8 {
        2
    }

    fn step(state: u8, class: Class) -> u8 {
        match class {
            Class::First => 1,
            Class::Second => 0,
            Class::Other => state,
        }
    }

    fn accepting(state: u8) -> bool {
        state == 0
    }

    fn fulfilled(counts: &Counts) -> u64 {
        counts.first.occurrences - counts.onward.no_later
    }
}
