ghost use Rattle.std.specs.Prelude.{◌≡◌, option_map};

use decl_base::Trace;
use std::marker::Model;

/// A list of constraints analysed.
#[derive(Debug, Drop)]
pub struct Analysed {
    pub(crate) accepts: Option<Trace>,
    pub(crate) dead: Vec<u32>,
    pub(crate) redundant: Vec<u32>,
    pub(crate) traces: Vec<Trace>,
}

impl Model for Analysed {
    ghost use Rattle.model_compare.specs.Analysis.{Analysis};

    ghost Value = { Analysis };

    ghost view = { λ a. record { accepts = a.accepts; dead = a.dead.items; redundant = a.redundant.items; traces = a.traces.items } };
}

impl Analysed {
    /// The least trace in shortlex order that keeps the list, or None where none does.
    pub fn accepts(&self) -> Option<&Trace>
        ensures { option_map (λ t. t.now) result ≡ self.now.accepts }
    {
        self.accepts.as_ref()
    }

    /// The symbols, but the last, that stand in no trace that keeps the list, ascending.
    pub fn dead(&self) -> &[u32]
        ensures { result.now ≡ self.now.dead }
    {
        &self.dead
    }

    /// The numbers, from 1, of the constraints that all the others imply, ascending.
    pub fn redundant(&self) -> &[u32]
        ensures { result.now ≡ self.now.redundant }
    {
        &self.redundant
    }

    /// The first traces in shortlex order that keep the list.
    pub fn traces(&self) -> &[Trace]
        ensures { result.now ≡ self.now.traces }
    {
        &self.traces
    }
}
