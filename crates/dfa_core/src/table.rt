ghost use Rattle.std.specs.Prelude.{◌≡◌, ◌<◌, ◌*◌, ◌^◌, ℕ, List, length, IfOk, IfErr, true, vec_len};
ghost use Rattle.dfa_core.specs.Automaton.{Automaton, IsWhole, IsEverything, accepts as takes, automaton, column as column_of, is_accepting, state_count, step as next_state, step_column as next_in_column};
ghost use Rattle.dfa_core.specs.Traces.{IsTrace};

use decl_base::Refusal;
use std::alloc::Global;
use std::marker::Model;

/// A complete automaton over the symbols below a number. Each symbol has a column, and symbols of one column lead alike.
#[derive(Drop)]
pub struct Dfa {
    columns: Vec<u32>,
    width: u32,
    start: u32,
    next: Vec<u32>,
    accepting: Vec<bool>,
}

impl Model for Dfa {
    ghost use Rattle.dfa_core.specs.Automaton.{Automaton, IsWhole, automaton};

    ghost Value = { Automaton };

    ghost view = { λ d. automaton d.columns.items d.width d.start d.next.items d.accepting.items };

    ghost invariant = { λ d. IsWhole (automaton d.columns.items d.width d.start d.next.items d.accepting.items) };
}

impl Dfa {
    /// The automaton of a table, which has a row for each state and in it an entry for each of its columns. `columns` has the column of each
    /// symbol, below `width`.
    pub fn of(
        columns: Vec<u32>,
        width: u32,
        start: u32,
        next: Vec<u32>,
        accepting: Vec<bool>,
    ) -> Dfa
        requires { IsWhole (automaton columns.items width start next.items accepting.items) }
        ensures { result ≡ automaton columns.items width start next.items accepting.items }
    {
        Dfa {
            columns,
            width,
            start,
            next,
            accepting,
        }
    }

    /// The automaton of one state that accepts every trace. All symbols are in one column.
    pub fn everything(alloc: Global, symbols: u32) -> Result<Dfa, Refusal>
        ensures ok { IfOk result (IsEverything symbols) }
        ensures columns { IfOk result (λ a. a.width ≡ 1) }
        ensures err { IfErr result (λ e. e ≡ Refusal.Memory) }
    {
        let columns = vec![in alloc; 0; symbols as usize]?;
        let next = vec![in alloc; 0]?;
        let accepting = vec![in alloc; true]?;
        Ok(Dfa::of(columns, 1, 0, next, accepting))
    }

    /// The number of symbols.
    pub fn symbols(&self) -> u32
        ensures { result ≡ self.now.symbols }
    {
        self.columns.len() as u32
    }

    /// The number of columns.
    pub fn columns(&self) -> u32
        ensures value { result ≡ self.now.width }
        ensures whole { IsWhole self.now }
    {
        self.width
    }

    /// The column of a symbol.
    pub fn column(&self, symbol: u32) -> u32
        requires symbol { symbol < self.now.symbols }
        ensures value { result ≡ column_of self.now symbol }
        ensures bound { result < self.now.width }
    {
        self.columns[symbol as usize]
    }

    /// The number of states.
    pub fn states(&self) -> u32
        ensures value { result ≡ state_count self.now }
        ensures whole { IsWhole self.now }
    {
        self.accepting.len() as u32
    }

    /// The state at which a trace starts.
    pub fn start(&self) -> u32
        ensures value { result ≡ self.now.start }
        ensures bound { result < state_count self.now }
    {
        self.start
    }

    /// The state after a symbol.
    #[tactic(auto, unfolding(crate::specs::Automaton::step))]
    pub fn step(&self, state: u32, symbol: u32) -> u32
        requires state { state < state_count self.now }
        requires symbol { symbol < self.now.symbols }
        ensures value { result ≡ next_state self.now state symbol }
        ensures bound { result < state_count self.now }
    {
        self.step_column(state, self.column(symbol))
    }

    /// The state after a symbol of the column.
    #[tactic(auto, unfolding(crate::specs::Automaton::step_column))]
    pub fn step_column(&self, state: u32, column: u32) -> u32
        requires state { state < state_count self.now }
        requires column { column < self.now.width }
        ensures value { result ≡ next_in_column self.now state column }
        ensures bound { result < state_count self.now }
    {
        self.next[state as usize * self.width as usize + column as usize]
    }

    /// Whether a trace that ends at the state is accepted.
    pub fn accepting(&self, state: u32) -> bool
        requires { state < state_count self.now }
        ensures { result ≡ is_accepting self.now state }
    {
        self.accepting[state as usize]
    }

    /// Whether the trace is accepted.
    pub fn accepts(&self, trace: &[u32]) -> bool
        requires { IsTrace self.now.symbols trace.now }
        ensures { result ≡ takes self.now trace.now }
    {
        let mut state = self.start();
        for symbol in trace {
            state = self.step(state, *symbol);
        }
        self.accepting(state)
    }
}
