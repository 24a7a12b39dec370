ghost use Rattle.std.specs.Prelude.{◌≡◌, option_map};

use decl_base::Trace;
use std::marker::Model;

/// How the traces that keep two lists of constraints relate.
#[derive(Clone, Copy, Debug, PartialEq, Eq)]
pub enum Relation {
    /// The same traces keep both.
    Equal,
    /// The traces that keep the first are a proper part of those that keep the second.
    Stronger,
    /// The traces that keep the second are a proper part of those that keep the first.
    Weaker,
    /// Each has a trace that the other hasn't.
    Neither,
}

/// Two lists of constraints compared: the relation, and for each list the least trace that keeps it alone.
#[derive(Debug, Drop)]
pub struct Compared {
    pub(crate) relation: Relation,
    pub(crate) only_first: Option<Trace>,
    pub(crate) only_second: Option<Trace>,
}

impl Model for Compared {
    ghost use Rattle.model_compare.specs.Comparison.{Comparison};

    ghost Value = { Comparison };

    ghost view = { λ c. record { relation = c.relation; only_first = c.only_first; only_second = c.only_second } };
}

impl Compared {
    /// How the traces that keep the lists relate.
    pub fn relation(&self) -> Relation
        ensures { result ≡ self.now.relation }
    {
        self.relation
    }

    /// The least trace in shortlex order that keeps the first list and not the second, or None where there is none.
    pub fn only_first(&self) -> Option<&Trace>
        ensures { option_map (λ t. t.now) result ≡ self.now.only_first }
    {
        self.only_first.as_ref()
    }

    /// The least trace in shortlex order that keeps the second list and not the first, or None where there is none.
    pub fn only_second(&self) -> Option<&Trace>
        ensures { option_map (λ t. t.now) result ≡ self.now.only_second }
    {
        self.only_second.as_ref()
    }
}
