ghost use Rattle.std.specs.Prelude.{◌≡◌};

use decl_base::Trace;
use std::marker::Model;

/// What becomes of a candidate.
#[derive(Clone, Copy, Debug, PartialEq, Eq)]
pub enum Decision {
    /// It stays.
    Kept,
    /// No trace keeps it and all that were kept before it.
    Conflict,
    /// A kept constraint is above it in the hierarchy: the one at this place of the list, from 0.
    Weaker { by: u32 },
    /// Those that were kept before it imply it.
    FirstPass,
    /// All the others that stay imply it.
    SecondPass,
    /// Some trace keeps it and all that were kept before it, and with them it tells more traces apart than the limit. `sift` and `reduce` don't give it.
    Beyond,
    /// It stays. The list that its second pass or its witness asks for tells more traces apart than the limit. `sift` and `reduce` don't give it.
    Untested,
}

impl Decision {
    ghost use Rattle.reduce_model.specs.Deciding.{is_consistent as consistent, is_kept as kept};

    /// Whether it is in the conflict-free model.
    pub(crate) fn is_consistent(&self) -> bool
        ensures { result ≡ consistent self.now }
    {
        !matches!(self, Decision::Conflict | Decision::Beyond)
    }

    /// Whether it still stands.
    pub fn is_kept(&self) -> bool
        ensures { result ≡ kept self.now }
    {
        matches!(self, Decision::Kept | Decision::Untested)
    }
}

/// A list of candidates gone through: a decision for each, and the least trace that keeps all that stay.
#[derive(Debug, Drop)]
pub struct Sifted {
    pub(crate) decisions: Vec<Decision>,
    pub(crate) example: Trace,
}

impl Model for Sifted {
    ghost use Rattle.reduce_model.specs.Sifting.{Sifting};

    ghost Value = { Sifting };

    ghost view = { λ s. record { decisions = s.decisions.items; example = s.example } };
}

impl Sifted {
    /// The decisions, in the order of the candidates.
    pub fn decisions(&self) -> &[Decision]
        ensures { result.now ≡ self.now.decisions }
    {
        &self.decisions
    }

    /// The least trace in shortlex order that keeps all constraints that stay.
    pub fn example(&self) -> &Trace
        ensures { result.now ≡ self.now.example }
    {
        &self.example
    }
}

/// A list of candidates reduced: a decision for each, a witness for each that stays, and the least trace that keeps all that stay.
#[derive(Debug, Drop)]
pub struct Reduced {
    pub(crate) decisions: Vec<Decision>,
    pub(crate) witnesses: Vec<Trace>,
    pub(crate) example: Trace,
}

impl Model for Reduced {
    ghost use Rattle.reduce_model.specs.Reduction.{Reduction};

    ghost Value = { Reduction };

    ghost view = { λ r. record { decisions = r.decisions.items; witnesses = r.witnesses.items; example = r.example } };
}

impl Reduced {
    /// The decisions, in the order of the candidates.
    pub fn decisions(&self) -> &[Decision]
        ensures { result.now ≡ self.now.decisions }
    {
        &self.decisions
    }

    /// For each candidate that stays, in their order, the least trace in shortlex order that keeps all the others which stay and breaks it.
    pub fn witnesses(&self) -> &[Trace]
        ensures { result.now ≡ self.now.witnesses }
    {
        &self.witnesses
    }

    /// The least trace in shortlex order that keeps all constraints that stay.
    pub fn example(&self) -> &Trace
        ensures { result.now ≡ self.now.example }
    {
        &self.example
    }
}
