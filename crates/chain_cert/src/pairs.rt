ghost use Rattle.std.specs.Prelude.{◌≡◌, IfNone, IfSome};
ghost use Rattle.chain_cert.specs.Forms.{IsAscending};

use crate::forms::is_ascending;
use std::marker::Model;

/// Pairs of a state of the last link and one of a dropped constraint's table.
#[derive(Debug, Drop)]
pub struct Pairs {
    pairs: Vec<[u32; 2]>,
}

impl Model for Pairs {
    ghost use Rattle.std.specs.Prelude.{List, ℕ};
    ghost use Rattle.chain_cert.specs.Forms.{IsAscending};

    ghost Value = { List (List ℕ) };

    ghost view = { λ p. p.pairs.items };

    ghost invariant = { λ p. IsAscending p.pairs.items };
}

impl Pairs {
    /// These pairs, or None where they aren't strictly ascending: the first number that differs decides.
    pub fn of(pairs: Vec<[u32; 2]>) -> Option<Pairs>
        ensures some { IfSome result (λ made. made ≡ pairs.items) }
        ensures form { IfSome result IsAscending }
        ensures none { IfNone result (IsAscending pairs.items → ⊥) }
    {
        if !is_ascending(&pairs) {
            return None;
        }
        Some(Pairs { pairs })
    }

    /// The pairs, strictly ascending.
    pub fn pairs(&self) -> &[[u32; 2]]
        ensures value { result.now ≡ self.now }
        ensures form { IsAscending self.now }
    {
        &self.pairs
    }
}
