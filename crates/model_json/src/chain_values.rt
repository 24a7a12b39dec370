ghost use Rattle.std.specs.Prelude.{◌≡◌, ◌+◌, ◌*◌, ◌≤◌, drop, length, map, take, IfOk, IfErr};
ghost use Rattle.serde_json.specs.View.{view};
ghost use Rattle.model_json.specs.ChainValue.{certificate_object, chain_object as chain_of, link_object as link_of, link_value, list_value, mark_value, number_value as number_of, numbers_value, rows_of, tuples_value};

use chain_cert::{Chain, Link, Pairs};
use decl_base::Refusal;
use serde_json::{Value, json};
use std::alloc::{AllocError, Global};

/// The certificate of a report and a chain.
pub fn certificate_value(alloc: Global, report: Value, chain: &Chain) -> Result<Value, Refusal>
    ensures value { IfOk result (λ value. view value ≡ certificate_object (view report) chain.now) }
    ensures cause { IfErr result (λ e. e ≡ Refusal.Memory) }
{
    let links = link_values(alloc, chain.links())?;
    let implied = implied_values(alloc, chain.implied())?;
    Ok(chain_object(alloc, links, implied, report)?)
}

fn chain_object(
    alloc: Global,
    links: Vec<Value>,
    implied: Vec<Value>,
    report: Value,
) -> Result<Value, AllocError>
    ensures { IfOk result (λ value. view value ≡ chain_of (map view links.items) (map view implied.items) (view report)) }
{
    json!(in alloc; {"chain": links, "implied": implied, "report": report})
}

fn link_values(alloc: Global, links: &[Link]) -> Result<Vec<Value>, AllocError>
    ensures { IfOk result (λ values. map view values.items ≡ map link_value links.now) }
{
    let mut values = Vec::new(alloc);
    for link in links {
        values.push(link_value(alloc, link)?)?;
    }
    Ok(values)
}

fn implied_values(alloc: Global, implied: &[Pairs]) -> Result<Vec<Value>, AllocError>
    ensures { IfOk result (λ values. map view values.items ≡ map tuples_value implied.now) }
{
    let mut values = Vec::new(alloc);
    for pairs in implied {
        values.push(tuples_value(alloc, pairs.pairs())?)?;
    }
    Ok(values)
}

/// An automaton and its triples.
fn link_value(alloc: Global, link: &Link) -> Result<Value, AllocError>
    ensures { IfOk result (λ value. view value ≡ link_value link.now) }
{
    let accepting = marks_value(alloc, link.accepting())?;
    let columns = numbers_value(alloc, link.columns())?;
    let next = rows_value(alloc, link)?;
    let pairs = tuples_value(alloc, link.pairs())?;
    link_object(alloc, accepting, columns, next, pairs)
}

fn link_object(
    alloc: Global,
    accepting: Value,
    columns: Value,
    next: Value,
    pairs: Value,
) -> Result<Value, AllocError>
    ensures { IfOk result (λ value. view value ≡ link_of (view accepting) (view columns) (view next) (view pairs)) }
{
    json!(in alloc; {
        "accepting": accepting,
        "columns": columns,
        "next": next,
        "pairs": pairs
    })
}

/// A list with 1 for each accepting state, and 0 for each other one.
fn marks_value(alloc: Global, accepting: &[bool]) -> Result<Value, AllocError>
    ensures { IfOk result (λ value. view value ≡ list_value (map mark_value accepting.now)) }
{
    let mut values = Vec::new(alloc);
    for accepts in accepting {
        values.push(mark_value(*accepts))?;
    }
    Ok(Value::Array(values))
}

/// A list with a list of the states after each state.
fn rows_value(alloc: Global, link: &Link) -> Result<Value, AllocError>
    ensures { IfOk result (λ value. view value ≡ tuples_value (rows_of link.now)) }
{
    let states = link.accepting().len();
    let next = link.next();
    let width = next.len() / states;
    let mut values = Vec::new(alloc);
    for state in 0..states {
        values.push(numbers_value(alloc, row_at(next, width, state))?)?;
    }
    Ok(Value::Array(values))
}

/// The row with this number of rows of a width that stand one after the other.
fn row_at(next: &[u32], width: usize, row: usize) -> &[u32]
    requires { (row + 1) * width ≤ length next.now }
    ensures { result.now ≡ take width (drop (row * width) next.now) }
{
    &next[row * width..][..width]
}

/// A list with a list of each tuple.
fn tuples_value<const N: usize>(alloc: Global, tuples: &[[u32; N]]) -> Result<Value, AllocError>
    ensures { IfOk result (λ value. view value ≡ tuples_value tuples.now) }
{
    let mut values = Vec::new(alloc);
    for tuple in tuples {
        values.push(numbers_value(alloc, tuple)?)?;
    }
    Ok(Value::Array(values))
}

fn numbers_value(alloc: Global, numbers: &[u32]) -> Result<Value, AllocError>
    ensures { IfOk result (λ value. view value ≡ numbers_value numbers.now) }
{
    let mut values = Vec::new(alloc);
    for number in numbers {
        values.push(number_value(*number))?;
    }
    Ok(Value::Array(values))
}

fn number_value(number: u32) -> Value
    ensures { view result ≡ number_of number }
{
    Value::from(number)
}

/// 1 for an accepting state, and 0 for another.
fn mark_value(accepts: bool) -> Value
    ensures { view result ≡ mark_value accepts }
{
    if accepts {
        number_value(1)
    } else {
        number_value(0)
    }
}
