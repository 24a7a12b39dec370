ghost use Rattle.std.specs.Prelude.{◌≡◌, ◌<◌, ◌^◌, ℕ, [], None, map, replicate, slice_index, slice_index_or, length, IfOk, IfErr, OnOk, vec_len};
ghost use Rattle.dfa_core.specs.Columns.{AreColumns, Columns, columns_of};
ghost use Rattle.dfa_core.specs.Grouping.{Adds, IsGrouped};

use crate::{Dfa, System};
use decl_base::{Refusal, Trace};
use std::alloc::Global;

/// A system that tells which of its symbols lead alike. It has columns, numbered from 0, and symbols of one column lead alike from each state.
pub trait Columned: System {
    ghost columns: { Self → Columns };

    /// The number of columns.
    fn columns(&self) -> usize
        ensures value { result ≡ (columns self.now).count }
        ensures alike { AreColumns (Self.steps self.now) (columns self.now) };

    /// The column of a symbol.
    fn column(&self, symbol: u32) -> usize
        requires { symbol < (Self.steps self.now).symbols }
        ensures { result ≡ (columns self.now).of symbol };
}

impl Columned for Dfa {
    ghost columns = { columns_of };

    fn columns(&self) -> usize {
        self.columns() as usize
    }

    fn column(&self, symbol: u32) -> usize {
        self.column(symbol) as usize
    }
}

/// The columns of a system's symbols, numbered in the order of their least symbols. A column that has no symbol has no number.
#[derive(Drop)]
pub(crate) struct Grouping {
    /// The number of each symbol's column.
    pub of: Vec<u32>,
    /// The least symbol of each number.
    pub least: Vec<u32>,
    /// The number of each column of the system that was met.
    pub numbers: Vec<Option<u32>>,
}

impl Grouping {
    /// The columns of a system.
    pub fn of<S: Columned>(alloc: Global, system: &S) -> Result<Grouping, Refusal>
        ensures ok { IfOk result (λ g. IsGrouped (S.columns system.now) (S.steps system.now).symbols g.of.items g.least.items) }
        ensures alike { IfOk result (λ g. AreColumns (S.steps system.now) (S.columns system.now)) }
        ensures few { IfOk result (λ g. (S.steps system.now).symbols < 2 ^ 32) }
        ensures err { IfErr result (λ e. e ≡ Refusal.Memory) }
    {
        let mut grouping = Grouping::none(alloc, system.columns())?;
        for symbol in 0..system.symbols() {
            grouping.add(symbol, system.column(symbol))?;
        }
        Ok(grouping)
    }

    /// Of a system of so many columns no symbol.
    fn none(alloc: Global, columns: usize) -> Result<Grouping, Refusal>
        ensures of { IfOk result (λ g. g.of.items ≡ []) }
        ensures least { IfOk result (λ g. g.least.items ≡ []) }
        ensures numbers { IfOk result (λ g. g.numbers.items ≡ replicate columns None) }
        ensures err { IfErr result (λ e. e ≡ Refusal.Memory) }
    {
        Ok(Grouping {
            of: Vec::new(alloc),
            least: Vec::new(alloc),
            numbers: vec![in alloc; None; columns]?,
        })
    }

    /// Adds a symbol of a column of the system.
    fn add(&mut self, symbol: u32, column: usize) -> Result<(), Refusal>
        requires column { column < vec_len self.old.numbers }
        requires few { vec_len self.old.least < 2 ^ 32 }
        ensures ok { OnOk result (Adds self.old self.new symbol column) }
        ensures err { IfErr result (λ e. e ≡ Refusal.Memory) }
    {
        match self.numbers[column] {
            Some(number) => self.of.push(number)?,
            None => {
                let number = self.least.len() as u32;
                self.of.push(number)?;
                self.least.push(symbol)?;
                self.numbers[column] = Some(number);
            }
        }
        Ok(())
    }

    /// Of the traces that go through these columns the least.
    pub fn least_trace(&self, alloc: Global, columns: &[u32]) -> Result<Trace, Refusal>
        requires { (i : ℕ) → i < length columns.now → slice_index columns.now i < vec_len self.now.least }
        ensures ok { IfOk result (λ t. t ≡ map (λ k. slice_index_or self.now.least.items k 0) columns.now) }
        ensures err { IfErr result (λ e. e ≡ Refusal.Memory) }
    {
        let mut trace = Vec::new(alloc);
        for column in columns {
            trace.push(self.least[*column as usize])?;
        }
        Trace::of(alloc, &trace)
    }
}

/// A system with its numbered columns as symbols. Each leads where its least symbol does.
#[derive(Drop)]
pub(crate) struct ByColumns<'a, S: System> {
    pub system: &'a S,
    pub grouping: &'a Grouping,
    ghost few: { length grouping.now.least.items < 2 ^ 32 },
    ghost bound: { (k : ℕ) → k < length grouping.now.least.items → slice_index grouping.now.least.items k < (S.steps system.now).symbols },
}

impl<S: System> System for ByColumns<'_, S> {
    ghost use Rattle.dfa_core.specs.Grouping.{by_columns};

    ghost steps = { λ b. by_columns (S.steps b.system.now) b.grouping.now.least.items };

    fn symbols(&self) -> u32 {
        self.grouping.least.len() as u32
    }

    fn states(&self) -> u32 {
        self.system.states()
    }

    fn start(&self) -> u32 {
        self.system.start()
    }

    fn step(&self, state: u32, symbol: u32) -> u32 {
        self.system
            .step(state, self.grouping.least[symbol as usize])
    }

    fn accepting(&self, state: u32) -> bool {
        self.system.accepting(state)
    }
}
