ghost use Rattle.std.specs.Prelude.{◌≡◌, ◌*◌, ◌/◌, ◌%◌, ◌<◌, All, IfOk, IfErr, length};
ghost use Rattle.dfa_core.specs.Automaton.{IsWhole, column, is_accepting, state_count, step_column};
ghost use Rattle.chain_cert.specs.Forms.{IsAscending, right};
ghost use Rattle.chain_make.specs.Copies.{AreValues, Copies};

use chain_cert::Link;
use decl_base::Refusal;
use dfa_core::Dfa;
use std::alloc::Global;

/// The column of each symbol.
fn columns_of(alloc: Global, dfa: &Dfa) -> Result<Vec<u32>, Refusal>
    ensures ok { IfOk result (λ list. AreValues dfa.now.symbols (column dfa.now) list.items) }
    ensures err { IfErr result (λ e. e ≡ Refusal.Memory) }
{
    let mut columns = Vec::new(alloc);
    for symbol in 0..dfa.symbols() {
        columns.push(dfa.column(symbol))?;
    }
    Ok(columns)
}

/// The states after each state's columns, row after row.
fn rows_of(alloc: Global, dfa: &Dfa) -> Result<Vec<u32>, Refusal>
    ensures ok { IfOk result (λ list. AreValues (state_count dfa.now * dfa.now.width)
        (λ place. step_column dfa.now (place / dfa.now.width) (place % dfa.now.width)) list.items) }
    ensures err { IfErr result (λ e. e ≡ Refusal.Memory) }
{
    let width = dfa.columns() as usize;
    let mut rows = Vec::new(alloc);
    for place in 0..dfa.states() as usize * width {
        let state = (place / width) as u32;
        let column = (place % width) as u32;
        rows.push(dfa.step_column(state, column))?;
    }
    Ok(rows)
}

/// Which states accept.
fn accepting_of(alloc: Global, dfa: &Dfa) -> Result<Vec<bool>, Refusal>
    ensures ok { IfOk result (λ list. AreValues (state_count dfa.now) (is_accepting dfa.now) list.items) }
    ensures err { IfErr result (λ e. e ≡ Refusal.Memory) }
{
    let mut accepting = Vec::new(alloc);
    for state in 0..dfa.states() {
        accepting.push(dfa.accepting(state))?;
    }
    Ok(accepting)
}

/// The link of an automaton and triples that end at its states.
pub(crate) fn link_of(alloc: Global, dfa: &Dfa, triples: Vec<[u32; 3]>) -> Result<Link, Refusal>
    requires whole { IsWhole dfa.now }
    requires start { dfa.now.start ≡ 0 }
    requires ascending { IsAscending triples.items }
    requires right { All (λ triple. right triple < state_count dfa.now) triples.items }
    ensures copied { IfOk result (Copies dfa.now) }
    ensures columns { IfOk result (λ link. length link.columns ≡ dfa.now.symbols) }
    ensures pairs { IfOk result (λ link. link.pairs ≡ triples.items) }
    ensures err { IfErr result (λ e. e ≡ Refusal.Memory) }
{
    let accepting = accepting_of(alloc, dfa)?;
    let columns = columns_of(alloc, dfa)?;
    let rows = rows_of(alloc, dfa)?;
    match Link::of(accepting, columns, rows, triples) {
        Some(link) => Ok(link),
        None => unreachable!(),
    }
}
