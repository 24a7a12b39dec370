ghost use Rattle.std.specs.Prelude.{◌<◌, ◌≤◌, [], length, take, IfOk, IfErr};
ghost use Rattle.reduce_model.specs.Passes.{AreFirstWitnesses, AreMoreWitnesses, IsAsked, IsIrredundant, IsStart, IsWitnessed, RefusesWitness, RefusesWitnesses};

use crate::grown::{Sought, seek};
use crate::prefixes::Prefix;
use decl_base::{Refusal, Trace};
use list_dfa::or_start;
use std::alloc::Global;
use template_core::Constraint;

/// For each constraint of a model the least trace that keeps all the others and breaks it, where those of the first are known. The lists begin
/// with constraints for which all witnesses are known, carried as an automaton.
pub(crate) fn witnesses_of(
    alloc: Global,
    model: &[Constraint],
    symbols: u32,
    states: u64,
    start: &Prefix,
    known: Vec<Trace>,
) -> Result<Vec<Trace>, Refusal>
    requires asked { IsAsked symbols states model.now }
    requires irredundant { IsIrredundant symbols model.now }
    requires known { AreFirstWitnesses symbols states [] model.now known.items }
    requires start { IsStart symbols states (take start.now.length model.now) start.now }
    requires enough { start.now.length ≤ length known.items }
    ensures ok { IfOk result (λ witnesses. IsWitnessed symbols states model.now witnesses.items) }
    ensures err { IfErr result (RefusesWitnesses symbols states model.now) }
{
    let mut witnesses = known;
    if witnesses.len() == model.len() {
        return Ok(witnesses);
    }
    let mut grown = None;
    let mut last = start.dfa.states();
    for place in start.length as usize..model.len() {
        let before = or_start(&grown, start);
        let built = before.length + 1;
        put_witness(alloc, model, symbols, states, before, place, &mut witnesses)?;
        if place + 1 < model.len() {
            match before.longer(alloc, &model[place], states, &mut last)? {
                Some(more) => grown = Some(more),
                None => return Err(Refusal::States { phase: 4, built }),
            }
        }
    }
    Ok(witnesses)
}

/// Puts the witness of the constraint at a place behind the others, where they are as many as the constraints before it.
fn put_witness(
    alloc: Global,
    model: &[Constraint],
    symbols: u32,
    states: u64,
    before: &Prefix,
    place: usize,
    witnesses: &mut Vec<Trace>,
) -> Result<(), Refusal>
    requires asked { IsAsked symbols states model.now }
    requires irredundant { IsIrredundant symbols model.now }
    requires there { place < length model.now }
    requires start { IsStart symbols states (take place model.now) before.now }
    ensures ok { IfOk result (λ done. AreMoreWitnesses symbols states model.now place witnesses.old.items witnesses.new.items) }
    ensures err { IfErr result (RefusesWitness symbols states model.now place) }
{
    if witnesses.len() == place {
        let after = &model[place + 1..];
        match seek(alloc, before, after, &model[place], symbols, states)? {
            Sought::Found(witness) => witnesses.push(witness)?,
            Sought::Missing => unreachable!(),
            Sought::TooWide(built) => return Err(Refusal::States { phase: 4, built }),
        }
    }
    Ok(())
}
