use template_core::{Class, Counts, Kind, Template};

/// Directly after each a stands a b, and directly before each b an a.
pub struct ChainSuccession;

impl Template for ChainSuccession {
    ghost use Rattle.std.proofs.Common.{refl};
    ghost use Rattle.template_core.specs.declared.kind.Kind.TheVariants.{ChainSuccession as the_kind};
    ghost use Rattle.templates_pair.specs.ChainSuccession.{meaning};
    ghost use Rattle.templates_pair.specs.ChainSuccessionLaw.{kept, told};

    ghost meaning = { meaning };

    ghost laws = { (kept, told, refl) };

    ghost ARITY = { 2 };

    const ARITY: u8 = 2;

    ghost KIND = { the_kind };

    const KIND: Kind = Kind::ChainSuccession;

    fn states() -> u8 {
        3
    }

    fn step(state: u8, class: Class) -> u8 {
        match class {
            Class::First => if state == 0 { 1 } else { 2 },
            Class::Second => if state == 1 { 0 } else { 2 },
            Class::Other => if state == 0 { 0 } else { 2 },
        }
    }

    fn accepting(state: u8) -> bool {
        state == 0
    }

    fn fulfilled(counts: &Counts) -> u64 {
        counts.onward.next + counts.back.previous
    }
}
