ghost use Rattle.std.specs.Prelude.{◌≡◌, ◌<◌, ◌*◌, ◌^◌};
ghost use Rattle.dfa_core.specs.Automaton.{state_count};
ghost use Rattle.template_core.specs.Tables.{IsTable};

use dfa_core::{Dfa, System};
use template_core::{Constraint, Table, class_of};

/// An automaton and a constraint's table side by side: a pair of their states is one number. A trace is accepted where both accept it.
#[derive(Drop)]
pub(crate) struct Product<'a> {
    pub dfa: &'a Dfa,
    pub table: &'a Table,
    pub constraint: &'a Constraint,
    ghost whole: { IsTable table.now },
    ghost fits: { state_count dfa.now * table.now.states < 2 ^ 32 },
}

impl System for Product<'_> {
    ghost use Rattle.chain_make.specs.Beside.{pairs};

    ghost steps = { λ p. pairs p.dfa.now p.table.now p.constraint.now };

    fn symbols(&self) -> u32 {
        self.dfa.symbols()
    }

    fn states(&self) -> u32 {
        self.dfa.states() * self.table.states as u32
    }

    fn start(&self) -> u32 {
        self.dfa.start() * self.table.states as u32 + self.table.start as u32
    }

    fn step(&self, state: u32, symbol: u32) -> u32 {
        let width = self.table.states as u32;
        let first = self.dfa.step(state / width, symbol);
        let class = class_of(self.constraint, symbol);
        first * width + self.table.step((state % width) as u8, class) as u32
    }

    fn accepting(&self, state: u32) -> bool {
        let width = self.table.states as u32;
        self.dfa.accepting(state / width) && self.table.accepts_at((state % width) as u8)
    }
}
