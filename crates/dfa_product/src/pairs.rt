ghost use Rattle.std.specs.Prelude.{◌≡◌, ◌<◌, ◌*◌, ◌^◌};
ghost use Rattle.dfa_core.specs.Automaton.{state_count};
ghost use Rattle.template_core.specs.Tables.{IsTable};

use dfa_core::{Columned, Dfa, System};
use template_core::{Class, Constraint, Table, class_of};

/// Two automata side by side: a pair of their states is one number, and so is a pair of their columns. A trace is accepted where both accept it.
#[derive(Drop)]
pub(crate) struct Pairs<'a, S: Columned> {
    pub first: &'a Dfa,
    pub second: &'a S,
    /// How many states the second has.
    pub width: u32,
    ghost width_told: { width ≡ (S.steps second.now).states },
    ghost same_symbols: { (S.steps second.now).symbols ≡ first.now.symbols },
    ghost fits: { state_count first.now * width < 2 ^ 32 },
    ghost few_columns: { (S.columns second.now).count < 2 ^ 32 },
}

impl<S: Columned> System for Pairs<'_, S> {
    ghost use Rattle.dfa_core.specs.Automaton.{steps_of};
    ghost use Rattle.dfa_product.specs.SideBySide.{pairs};

    ghost steps = { λ p. pairs (steps_of p.first.now) (S.steps p.second.now) };

    fn symbols(&self) -> u32 {
        self.first.symbols()
    }

    fn states(&self) -> u32 {
        self.first.states() * self.width
    }

    fn start(&self) -> u32 {
        self.first.start() * self.width + self.second.start()
    }

    fn step(&self, state: u32, symbol: u32) -> u32 {
        let first = self.first.step(state / self.width, symbol);
        first * self.width + self.second.step(state % self.width, symbol)
    }

    fn accepting(&self, state: u32) -> bool {
        self.first.accepting(state / self.width) && self.second.accepting(state % self.width)
    }
}

impl<S: Columned> Columned for Pairs<'_, S> {
    ghost use Rattle.dfa_core.specs.Columns.{columns_of};
    ghost use Rattle.dfa_product.specs.SideBySide.{pair_columns};

    ghost columns = { λ p. pair_columns (columns_of p.first.now) (S.columns p.second.now) };

    fn columns(&self) -> usize {
        self.first.columns() as usize * self.second.columns()
    }

    fn column(&self, symbol: u32) -> usize {
        self.first.column(symbol) as usize * self.second.columns() + self.second.column(symbol)
    }
}

/// A constraint's table as an automaton over so many symbols. It accepts the traces that keep the constraint, or all others.
#[derive(Drop)]
pub(crate) struct TableSteps<'a> {
    pub symbols: u32,
    pub table: &'a Table,
    pub constraint: &'a Constraint,
    pub keeps: bool,
    ghost whole: { IsTable table.now },
}

impl System for TableSteps<'_> {
    ghost use Rattle.dfa_product.specs.SideBySide.{table_steps};

    ghost steps = { λ t. table_steps t.symbols t.table.now t.constraint.now t.keeps };

    fn symbols(&self) -> u32 {
        self.symbols
    }

    fn states(&self) -> u32 {
        self.table.states as u32
    }

    fn start(&self) -> u32 {
        self.table.start as u32
    }

    fn step(&self, state: u32, symbol: u32) -> u32 {
        let class = class_of(self.constraint, symbol);
        self.table.step(state as u8, class) as u32
    }

    fn accepting(&self, state: u32) -> bool {
        self.table.accepts_at(state as u8) == self.keeps
    }
}

impl Columned for TableSteps<'_> {
    ghost use Rattle.dfa_product.specs.SideBySide.{table_columns};

    ghost columns = { λ t. table_columns t.constraint.now };

    fn columns(&self) -> usize {
        3
    }

    fn column(&self, symbol: u32) -> usize {
        match class_of(self.constraint, symbol) {
            Class::First => 0,
            Class::Second => 1,
            Class::Other => 2,
        }
    }
}

/// The traces that an automaton doesn't accept.
#[derive(Drop)]
pub(crate) struct Complement<'a> {
    pub dfa: &'a Dfa,
}

impl System for Complement<'_> {
    ghost use Rattle.dfa_core.specs.Automaton.{steps_of};
    ghost use Rattle.dfa_product.specs.SideBySide.{complement};

    ghost steps = { λ c. complement (steps_of c.dfa.now) };

    fn symbols(&self) -> u32 {
        self.dfa.symbols()
    }

    fn states(&self) -> u32 {
        self.dfa.states()
    }

    fn start(&self) -> u32 {
        self.dfa.start()
    }

    fn step(&self, state: u32, symbol: u32) -> u32 {
        self.dfa.step(state, symbol)
    }

    fn accepting(&self, state: u32) -> bool {
        !self.dfa.accepting(state)
    }
}

impl Columned for Complement<'_> {
    ghost use Rattle.dfa_core.specs.Columns.{columns_of};

    ghost columns = { λ c. columns_of c.dfa.now };

    fn columns(&self) -> usize {
        self.dfa.columns() as usize
    }

    fn column(&self, symbol: u32) -> usize {
        self.dfa.column(symbol) as usize
    }
}
