use template_core::{Class, Counts, Kind, Template};

/// Directly before each b stands an a.
pub struct ChainPrecedence;

impl Template for ChainPrecedence {
    ghost use Rattle.std.proofs.Common.{refl};
    ghost use Rattle.template_core.specs.declared.kind.Kind.TheVariants.{ChainPrecedence as the_kind};
    ghost use Rattle.templates_pair.specs.ChainPrecedence.{meaning};
    ghost use Rattle.templates_pair.specs.ChainPrecedenceLaw.{kept, told};

    ghost meaning = { meaning };

    ghost laws = { (kept, told, refl) };

    ghost ARITY = { 2 };

    const ARITY: u8 = 2;

    ghost KIND = { the_kind };

    const KIND: Kind = Kind::ChainPrecedence;

    fn states() -> u8 {
        3
    }

    fn step(state: u8, class: Class) -> u8 {
        match class {
            Class::First => if state == 2 { 2 } else { 1 },
            Class::Second => if state == 1 { 0 } else { 2 },
            Class::Other => if state == 2 { 2 } else { 0 },
        }
    }

    fn accepting(state: u8) -> bool {
        state != 2
    }

    fn fulfilled(counts: &Counts) -> u64 {
        counts.back.previous
    }
}
