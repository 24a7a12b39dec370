ghost use Rattle.std.specs.Prelude.{◌≡◌, ◌≤◌, [], length, All, true, IfOk, IfErr, IfSome, OnOk};
ghost use Rattle.decl_base.specs.Limits.{greatest_state_limit, standard};
ghost use Rattle.decl_outside.specs.Inputs.{KeepsInput};
ghost use Rattle.list_dfa.specs.Lists.{IsNarrowList};
ghost use Rattle.live_monitor.specs.Stands.{StandsFor, constraints_of, symbols_of};
ghost use Rattle.template_core.specs.Constraints.{IsWellMadeFor};
ghost use Rattle.monitor_lines.specs.Cases.{symbol_count};
ghost use Rattle.monitor_lines.specs.Watching.{CanWatch, PrintsAll, RefusesModel, WatchCause, most_constraints};

use crate::cases::Cases;
use crate::next_line::put_next;
use crate::waiting::{Texts, hand_over, settle};
use decl_base::{Limits, Refusal};
use decl_outside::{Inputs, Lines, Sink};
use event_log::Alphabet;
use live_monitor::Monitor;
use std::alloc::Global;
use template_core::Constraint;

/// A model that is watched has at most so many constraints.
const MOST_CONSTRAINTS: u64 = 1_000;

/// A monitor of a list of constraints over the places of these names and one symbol more, with no case yet.
///
/// Refusals, in this order: `Candidates` where there are more constraints than are watched; `States`, with phase 5, where
/// a prefix of the list tells more traces apart than `states`, and of the shortest such prefix. `Memory`.
pub fn monitor_of(
    alloc: Global,
    names: &Alphabet,
    list: &[Constraint],
    states: u64,
) -> Result<Monitor, Refusal>
    requires names { length names.now.names ≤ standard.activities }
    requires made { All (IsWellMadeFor (symbol_count names.now.names)) list.now }
    requires some_states { 1 ≤ states }
    requires few_states { states ≤ greatest_state_limit }
    ensures stands { IfOk result (λ monitor. StandsFor monitor []) }
    ensures symbols { IfOk result (λ monitor. symbols_of monitor ≡ symbol_count names.now.names) }
    ensures constraints { IfOk result (λ monitor. constraints_of monitor ≡ list.now) }
    ensures few { IfOk result (λ _. length list.now ≤ most_constraints) }
    ensures narrow { IfOk result (λ _. IsNarrowList (symbol_count names.now.names) states list.now) }
    ensures err { IfErr result (RefusesModel (symbol_count names.now.names) states list.now) }
{
    let count = list.len() as u64;
    if count > MOST_CONSTRAINTS {
        return Err(Refusal::Candidates { count });
    }
    Monitor::new(alloc, list, names.len() + 1, states)
}

/// Reads the lines that are left, each of which names a case and, behind its first tab, an event of it, and writes the
/// text of each: how the case stands by the list of constraints that the monitor watches, and by each of them. `names` has
/// the name of each symbol but the last, which is that of every other name. The texts of lines that were read at once are
/// written at once, and all of them before more is read.
///
/// Refusals, of the first line at fault: `LineLong`, `NotUtf8`, `NoTab`, `Events`, `Traces`, where lines are counted from 1,
/// and the texts of the lines before it are written. `ReadFault` comes where a read fails before a line at fault was read
/// whole, `WriteFault` where a write fails. `Memory` comes from any call.
pub fn watch<I: Inputs, O: Sink>(
    alloc: Global,
    names: &Alphabet,
    list: &[Constraint],
    monitor: Monitor,
    inputs: &mut I,
    out: &mut O,
    limits: &Limits,
) -> Result<(), Refusal>
    requires open { (I.state inputs.old).is_open ≡ true }
    requires out_takes { (O.state out.old).takes_any_length ≡ true }
    requires countable { CanWatch limits.now }
    requires few { length list.now ≤ most_constraints }
    requires symbols { symbols_of monitor ≡ symbol_count names.now.names }
    requires constraints { constraints_of monitor ≡ list.now }
    requires stands { StandsFor monitor [] }
    ensures keeps { KeepsInput (I.state inputs.old) (I.state inputs.new) }
    ensures all { OnOk result (IfSome (I.state inputs.old).left
        (λ bytes. PrintsAll limits.now names.now.names list.now bytes (O.state out.old) (O.state out.new))) }
    ensures cause { IfErr result (WatchCause limits.now names.now.names list.now
        (I.state inputs.old) (I.state inputs.new) (O.state out.old) (O.state out.new)) }
    ensures out_faults { (O.state out.old).faults ≤ (O.state out.new).faults }
    ensures out_still_takes { (O.state out.new).takes_any_length ≡ true }
{
    let mut lines = Lines::new(alloc, limits.line_bytes)?;
    let mut cases = Cases::new(alloc, monitor, limits.traces);
    let mut texts = Texts::new(alloc);
    let constraints = list.len() as u32;
    'lines: loop {
        settle(out, &mut texts, &lines)?;
        match put_next(
            names,
            &mut lines,
            &mut cases,
            inputs,
            &mut texts,
            limits,
            constraints,
        ) {
            Ok(true) => {}
            Ok(false) => {
                hand_over(out, &mut texts)?;
                return Ok(());
            }
            Err(refusal) => {
                hand_over(out, &mut texts)?;
                return Err(refusal);
            }
        }
    }
}
