ghost use Rattle.std.specs.Prelude.{◌≡◌, ◌==◌, [], codes, List, ℕ, Some, map, option_map, option_and_then, length, slice_index_or, All, IfOk, MatchOption};
ghost use Rattle.std.specs.List.{flat_map, list_all};
ghost use Rattle.serde_json.specs.View.{view};
ghost use Rattle.chain_cert.specs.Forms.{IsAscending, IsLink};
ghost use Rattle.chain_cert.specs.Parts.{LinkParts, chain_parts};
ghost use Rattle.model_json.specs.Model.{each};
ghost use Rattle.model_json.specs.Certificate.{joined as joined_in, link_in, list_of, list_under, number_in, tuple_in, AreLinks, ArePairs, HasNoLinks, HasNoPairs};

use crate::lists::{list_of, list_under, values_under};
use chain_cert::{Chain, Claim, Link, Pairs, links_fit};
use serde_json::Value;
use std::alloc::{AllocError, Global};

/// The links of a certificate, or None where they aren't in form for what it claims.
pub(crate) fn links_for(
    alloc: Global,
    certificate: &Value,
    claim: &Claim,
) -> Result<Option<Vec<Link>>, AllocError>
    ensures { IfOk result (λ links. MatchOption links (HasNoLinks (view certificate.now) claim.now)
        (λ links. AreLinks (view certificate.now) claim.now links.items)) }
{
    let Some(values) = values_under("chain", certificate) else {
        return Ok(None);
    };
    let Some(links) = links_of(alloc, values)? else {
        return Ok(None);
    };
    if links_fit(claim, &links) {
        Ok(Some(links))
    } else {
        Ok(None)
    }
}

/// The chain of a certificate with these links, or None where its pairs aren't in form for them and for what it claims.
pub(crate) fn chain_for(
    alloc: Global,
    certificate: &Value,
    claim: &Claim,
    links: Vec<Link>,
) -> Result<Option<Chain>, AllocError>
    ensures { IfOk result (λ chain. MatchOption chain (HasNoPairs (view certificate.now) claim.now links.items)
        (λ chain. (chain.links ≡ links.items) × ArePairs (view certificate.now) claim.now links.items chain.implied)) }
{
    let Some(values) = values_under("implied", certificate) else {
        return Ok(None);
    };
    let Some(implied) = implied_of(alloc, values)? else {
        return Ok(None);
    };
    Ok(Chain::of(claim, links, implied))
}

/// A link of each value.
fn links_of(alloc: Global, values: &[Value]) -> Result<Option<Vec<Link>>, AllocError>
    ensures { IfOk result (λ links. MatchOption links
        ((links : List LinkParts) → each link_in (map view values.now) ≡ Some links → All IsLink links → ⊥)
        (λ links. (each link_in (map view values.now) ≡ Some links.items) × All IsLink links.items)) }
{
    let mut links = Vec::new(alloc);
    for value in values {
        let Some(link) = link_of(alloc, value)? else {
            return Ok(None);
        };
        links.push(link)?;
    }
    Ok(Some(links))
}

/// The link that the value is.
fn link_of(alloc: Global, value: &Value) -> Result<Option<Link>, AllocError>
    ensures { IfOk result (λ link. MatchOption link
        ((link : LinkParts) → link_in (view value.now) ≡ Some link → IsLink link → ⊥)
        (λ link. (link_in (view value.now) ≡ Some link) × IsLink link)) }
{
    let Some(accepting) = list_under(alloc, "accepting", value)? else {
        return Ok(None);
    };
    let Some(columns) = list_under(alloc, "columns", value)? else {
        return Ok(None);
    };
    let Some(next) = next_of(alloc, value, accepting.len())? else {
        return Ok(None);
    };
    let Some(pairs) = list_under(alloc, "pairs", value)? else {
        return Ok(None);
    };
    Ok(Link::of(accepting, columns, next, pairs))
}

/// The states after those of a link, row after row: there is a row for each state, and all are of one width.
fn next_of(alloc: Global, value: &Value, states: usize) -> Result<Option<Vec<u32>>, AllocError>
    ensures { IfOk result (λ next. option_map (λ l. l.items) next
        ≡ option_and_then (joined_in states) (list_under (list_of number_in) (codes "next") (view value.now))) }
{
    let Some(values) = values_under("next", value) else {
        return Ok(None);
    };
    let Some(rows) = rows_of(alloc, values)? else {
        return Ok(None);
    };
    joined_of(alloc, states, &rows)
}

/// The rows one after the other, where there are as many as states, all of one width.
fn joined_of(
    alloc: Global,
    states: usize,
    rows: &[Vec<u32>],
) -> Result<Option<Vec<u32>>, AllocError>
    ensures { IfOk result (λ next. option_map (λ l. l.items) next ≡ joined_in states (map (λ row. row.items) rows.now)) }
{
    if rows.len() == states && have_one_width(rows) {
        Ok(Some(joined(alloc, rows)?))
    } else {
        Ok(None)
    }
}

/// A row of numbers of each value.
fn rows_of(alloc: Global, values: &[Value]) -> Result<Option<Vec<Vec<u32>>>, AllocError>
    ensures { IfOk result (λ rows. option_map (λ l. map (λ row. row.items) l.items) rows ≡ each (list_of number_in) (map view values.now)) }
{
    let mut rows = Vec::new(alloc);
    for value in values {
        let Some(row) = list_of(alloc, value)? else {
            return Ok(None);
        };
        rows.push(row)?;
    }
    Ok(Some(rows))
}

/// Whether all rows are of the width of the first.
fn have_one_width(rows: &[Vec<u32>]) -> bool
    ensures { result ≡ list_all (λ row. length row == length (slice_index_or (map (λ row. row.items) rows.now) 0 [])) (map (λ row. row.items) rows.now) }
{
    match rows.first() {
        Some(first) => are_of_width(rows, first.len()),
        None => true,
    }
}

fn are_of_width(rows: &[Vec<u32>], width: usize) -> bool
    ensures { result ≡ list_all (λ row. length row.items == width) rows.now }
{
    rows.iter().all(|row| row.len() == width)
}

/// The rows one after the other.
fn joined(alloc: Global, rows: &[Vec<u32>]) -> Result<Vec<u32>, AllocError>
    ensures { IfOk result (λ next. next.items ≡ flat_map (λ row. row.items) rows.now) }
{
    let mut next = Vec::new(alloc);
    for row in rows {
        next.extend_from_slice(row)?;
    }
    Ok(next)
}

/// Ascending pairs of each value.
fn implied_of(alloc: Global, values: &[Value]) -> Result<Option<Vec<Pairs>>, AllocError>
    ensures { IfOk result (λ implied. MatchOption implied
        ((implied : List (List (List ℕ))) → each (list_of (tuple_in 2)) (map view values.now) ≡ Some implied → All IsAscending implied → ⊥)
        (λ implied. (each (list_of (tuple_in 2)) (map view values.now) ≡ Some implied.items) × All IsAscending implied.items)) }
{
    let mut implied = Vec::new(alloc);
    for value in values {
        let Some(pairs) = pairs_of(alloc, value)? else {
            return Ok(None);
        };
        implied.push(pairs)?;
    }
    Ok(Some(implied))
}

/// The ascending pairs that the value is.
fn pairs_of(alloc: Global, value: &Value) -> Result<Option<Pairs>, AllocError>
    ensures { IfOk result (λ pairs. MatchOption pairs
        ((pairs : List (List ℕ)) → list_of (tuple_in 2) (view value.now) ≡ Some pairs → IsAscending pairs → ⊥)
        (λ pairs. (list_of (tuple_in 2) (view value.now) ≡ Some pairs) × IsAscending pairs)) }
{
    let Some(pairs) = list_of(alloc, value)? else {
        return Ok(None);
    };
    Ok(Pairs::of(pairs))
}
