use decl_base::Frac;
use template_core::Constraint;

/// A constraint with its scores over a log.
#[derive(Clone, Copy, Debug)]
pub struct Scored {
    pub constraint: Constraint,
    pub support: Frac,
    pub confidence: Frac,
    pub interest: Frac,
}
