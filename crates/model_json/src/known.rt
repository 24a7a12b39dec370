ghost use Rattle.std.specs.Prelude.{◌≡◌};

use event_log::Alphabet;
use std::marker::Model;
use template_core::Constraint;

/// A model that was read: its names, and its constraints over the places of the names.
#[derive(Drop)]
pub struct KnownModel {
    names: Alphabet,
    constraints: Vec<Constraint>,
}

impl Model for KnownModel {
    ghost use Rattle.model_json.specs.Model.{Known};

    ghost Value = { Known };

    ghost view = { λ m. record { names = m.names.names; constraints = m.constraints.items } };
}

impl KnownModel {
    /// These names and these constraints.
    pub(crate) fn new(names: Alphabet, constraints: Vec<Constraint>) -> KnownModel
        ensures { result ≡ record { names = names.names; constraints = constraints.items } }
    {
        KnownModel { names, constraints }
    }

    /// The names of `tasks`, then those of the constraints in their order, each once.
    pub fn names(&self) -> &Alphabet
        ensures { result.now.names ≡ self.now.names }
    {
        &self.names
    }

    /// The constraints in their order.
    pub fn constraints(&self) -> &[Constraint]
        ensures { result.now ≡ self.now.constraints }
    {
        &self.constraints
    }
}
