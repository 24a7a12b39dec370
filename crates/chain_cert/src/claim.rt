ghost use Rattle.std.specs.Prelude.{◌≡◌, IfNone, IfSome};
ghost use Rattle.chain_cert.specs.Forms.{IsClaim};
ghost use Rattle.chain_cert.specs.Parts.{claim_parts};

use crate::forms::{are_over, are_well_made, dropped_are_well_made, is_over};
use crate::limits::{MOST_CONSTRAINTS, MOST_SYMBOLS};
use decl_base::Trace;
use std::marker::Model;
use template_core::Constraint;

/// A constraint that isn't in the printed model.
#[derive(Clone, Copy, Debug, PartialEq, Eq)]
pub struct Dropped {
    pub constraint: Constraint,
    /// Whether it was dropped as a conflict, and not as implied.
    pub conflict: bool,
}

/// What a certificate is of: a printed model, a witness for each of its constraints, the dropped ones, and an example.
#[derive(Debug, Drop)]
pub struct Claim {
    symbols: u32,
    model: Vec<Constraint>,
    witnesses: Vec<Trace>,
    dropped: Vec<Dropped>,
    example: Trace,
}

impl Model for Claim {
    ghost use Rattle.chain_cert.specs.Forms.{IsClaim};
    ghost use Rattle.chain_cert.specs.Parts.{ClaimParts, claim_parts};

    ghost Value = { ClaimParts };

    ghost view = { λ c. claim_parts c.symbols c.model.items c.witnesses.items c.dropped.items c.example };

    ghost invariant = { λ c. IsClaim (claim_parts c.symbols c.model.items c.witnesses.items c.dropped.items c.example) };
}

impl Claim {
    /// The claim of these parts, or None where they haven't its form: at most 1,000 symbols; at most 65,536 constraints, and as many
    /// dropped ones, each well made over the symbols; one witness for each constraint; and witnesses and example over the symbols.
    pub fn of(
        symbols: u32,
        model: Vec<Constraint>,
        witnesses: Vec<Trace>,
        dropped: Vec<Dropped>,
        example: Trace,
    ) -> Option<Claim>
        ensures some { IfSome result (λ claim. claim ≡ claim_parts symbols model.items witnesses.items dropped.items example) }
        ensures form { IfSome result IsClaim }
        ensures none { IfNone result (IsClaim (claim_parts symbols model.items witnesses.items dropped.items example) → ⊥) }
    {
        if symbols > MOST_SYMBOLS
            || model.len() > MOST_CONSTRAINTS
            || dropped.len() > MOST_CONSTRAINTS
            || witnesses.len() != model.len()
        {
            return None;
        }
        let over = are_over(&witnesses, symbols) && is_over(example.events(), symbols);
        if !over || !are_well_made(&model, symbols) || !dropped_are_well_made(&dropped, symbols) {
            return None;
        }
        Some(Claim {
            symbols,
            model,
            witnesses,
            dropped,
            example,
        })
    }

    /// The number of symbols of its traces.
    pub(crate) fn symbols(&self) -> u32
        ensures { result ≡ self.now.symbols }
    {
        self.symbols
    }

    pub(crate) fn model(&self) -> &[Constraint]
        ensures value { result.now ≡ self.now.model }
        ensures form { IsClaim self.now }
    {
        &self.model
    }

    pub(crate) fn witnesses(&self) -> &[Trace]
        ensures { result.now ≡ self.now.witnesses }
    {
        &self.witnesses
    }

    pub(crate) fn dropped(&self) -> &[Dropped]
        ensures value { result.now ≡ self.now.dropped }
        ensures form { IsClaim self.now }
    {
        &self.dropped
    }

    pub(crate) fn example(&self) -> &[u32]
        ensures { result.now ≡ self.now.example }
    {
        self.example.events()
    }
}
