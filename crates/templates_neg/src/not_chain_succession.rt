use template_core::{Class, Counts, Kind, Template};

/// No b stands directly after an a.
pub struct NotChainSuccession;

impl Template for NotChainSuccession {
    ghost use Rattle.std.proofs.Common.{refl};
    ghost use Rattle.template_core.specs.declared.kind.Kind.TheVariants.{NotChainSuccession as the_kind};
    ghost use Rattle.templates_neg.specs.NotChainSuccession.{meaning};
    ghost use Rattle.templates_neg.specs.NotChainSuccessionLaw.{kept, told};

    ghost meaning = { meaning };

    ghost laws = { (kept, told, refl) };

    ghost ARITY = { 2 };

    const ARITY: u8 = 2;

    ghost KIND = { the_kind };

    const KIND: Kind = Kind::NotChainSuccession;

    fn states() -> u8 {
        3
    }

    fn step(state: u8, class: Class) -> u8 {
        match class {
            Class::First => if state == 2 { 2 } else { 1 },
            Class::Second => if state == 0 { 0 } else { 2 },
            Class::Other => if state == 2 { 2 } else { 0 },
        }
    }

    fn accepting(state: u8) -> bool {
        state != 2
    }

    fn fulfilled(counts: &Counts) -> u64 {
        (counts.first.occurrences - counts.onward.next)
            + (counts.second.occurrences - counts.back.previous)
    }
}
