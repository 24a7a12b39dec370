ghost use Rattle.std.specs.Prelude.{◌≡◌, ◌<◌, ◌≤◌, ◌^◌, IfOk, IfErr, length};
ghost use Rattle.chain_make.specs.Entries.{entries, pair, triple};

use decl_base::Refusal;
use std::alloc::Global;

/// The pairs of states that are numbers with a state beside them: a number is the first times the width, and the second.
pub(crate) fn pairs(
    alloc: Global,
    beside: &[Option<u32>],
    width: u32,
) -> Result<Vec<[u32; 2]>, Refusal>
    requires some { 0 < width }
    requires few { length beside.now ≤ 2 ^ 32 }
    ensures ok { IfOk result (λ list. list.items ≡ entries (pair width) beside.now (length beside.now)) }
    ensures err { IfErr result (λ e. e ≡ Refusal.Memory) }
{
    let mut list = Vec::new(alloc);
    for (place, state) in beside.iter().enumerate() {
        if state.is_some() {
            let number = place as u32;
            list.push([number / width, number % width])?;
        }
    }
    Ok(list)
}

/// The same with the state beside each.
pub(crate) fn triples(
    alloc: Global,
    beside: &[Option<u32>],
    width: u32,
) -> Result<Vec<[u32; 3]>, Refusal>
    requires some { 0 < width }
    requires few { length beside.now ≤ 2 ^ 32 }
    ensures ok { IfOk result (λ list. list.items ≡ entries (triple width) beside.now (length beside.now)) }
    ensures err { IfErr result (λ e. e ≡ Refusal.Memory) }
{
    let mut list = Vec::new(alloc);
    for (place, state) in beside.iter().enumerate() {
        if let Some(state) = state {
            let number = place as u32;
            list.push([number / width, number % width, *state])?;
        }
    }
    Ok(list)
}
