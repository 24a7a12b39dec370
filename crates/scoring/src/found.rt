ghost use Rattle.std.specs.Prelude.{◌≡◌, ◌+◌, ◌<◌, ◌^◌, List, [], ◌∷◌, ◌++◌, OnOk, IfErr};
ghost use Rattle.scoring.specs.declared.scored.Scored.{Scored as ScoredOf};

use crate::Scored;
use decl_base::Refusal;
use std::alloc::Global;

/// What was found so far: how many, and the list of them while they are at most the limit.
#[derive(Drop)]
pub(crate) struct Found {
    pub list: Vec<Scored>,
    pub count: u64,
    pub limit: u64,
}

impl Found {
    ghost use Rattle.scoring.specs.Found.{Holds};

    /// Nothing yet, and a list of at most so many.
    pub fn new(alloc: Global, limit: u64) -> Found
        ensures holds { Holds result [] }
        ensures limit { result.limit ≡ limit }
        ensures count { result.count ≡ 0 }
    {
        Found {
            list: Vec::new(alloc),
            count: 0,
            limit,
        }
    }

    /// Adds one, to the list too if it is within the limit.
    pub fn add(&mut self, scored: Scored) -> Result<(), Refusal>
        requires { self.old.count < 2 ^ 41 }
        ensures holds { OnOk result ((before : List ScoredOf) → Holds self.old before → Holds self.new (before ++ scored ∷ [])) }
        ensures limit { self.new.limit ≡ self.old.limit }
        ensures count { OnOk result (self.new.count ≡ self.old.count + 1) }
        ensures err { IfErr result (λ e. e ≡ Refusal.Memory) }
    {
        if self.count < self.limit {
            self.list.push(scored)?;
        }
        self.count += 1;
        Ok(())
    }
}
