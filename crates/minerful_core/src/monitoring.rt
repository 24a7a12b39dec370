ghost use Rattle.std.specs.Prelude.{◌≡◌, ◌≢◌, ◌≤◌, true, IfErr, IfSome, OnOk};
ghost use Rattle.decl_base.specs.Limits.{standard};
ghost use Rattle.decl_outside.specs.Faults.{Rose};
ghost use Rattle.minerful_words.specs.Grammars.{IsLimit};
ghost use Rattle.minerful_words.specs.Settings.{inputs_for};
ghost use Rattle.monitor_lines.specs.Watching.{PrintsAll};
ghost use Rattle.minerful_core.specs.Monitored.{LeavesLines, MonitorCause, MonitorLeaves, OfWatched};
ghost use Rattle.minerful_core.specs.Outcome.{IsCommandOutcome};
ghost use Rattle.minerful_core.specs.Run.{AsksFor, HasStatus, InputFailed, WritesError};

use crate::naming::constraints_over;
use crate::program::refuse;
use crate::reading::{open_named, read_known_model};
use decl_base::{Limits, Refusal, Status};
use decl_outside::{Inputs, Sink};
use minerful_words::{Command, Settings};
use monitor_lines::{monitor_of, watch};
use std::alloc::Global;

/// Writes how the cases of the log that the settings name stand, line by line, and the line of a refusal to `err`.
pub(crate) fn run_monitor<I: Inputs, O: Sink, E: Sink>(
    alloc: Global,
    settings: &Settings,
    inputs: &mut I,
    out: &mut O,
    err: &mut E,
) -> Status
    requires states { IsLimit settings.now.states }
    requires out_takes { (O.state out.old).takes_any_length ≡ true }
    requires err_takes { (E.state err.old).takes_any_length ≡ true }
    ensures status { IfSome (I.state inputs.old).contents
        (λ contents. HasStatus (IsCommandOutcome Command.Monitor settings.now contents) result) }
    ensures output { IfSome (I.state inputs.old).contents (λ contents. LeavesLines settings.now contents result
        (I.state inputs.new) (O.state out.old) (O.state out.new)) }
    ensures error { IfSome (I.state inputs.old).contents
        (λ contents. WritesError (IsCommandOutcome Command.Monitor settings.now contents) result (E.state err.old) (E.state err.new)) }
    ensures read_fault { result ≡ Status.ReadFault
        → InputFailed (inputs_for Command.Monitor settings.now) (I.state inputs.old) (I.state inputs.new) }
    ensures write_fault { result ≡ Status.WriteFault → Rose (O.state out.old).faults (O.state out.new).faults }
    ensures not_usage { result ≢ Status.Usage }
    ensures opens { AsksFor (inputs_for Command.Monitor settings.now) (I.state inputs.old) (I.state inputs.new) }
    ensures contents { (I.state inputs.new).contents ≡ (I.state inputs.old).contents }
    ensures later { (I.state inputs.old).faults ≤ (I.state inputs.new).faults }
    ensures out_later { (O.state out.old).faults ≤ (O.state out.new).faults }
    ensures err_later { (E.state err.old).faults ≤ (E.state err.new).faults }
    ensures out_still_takes { (O.state out.new).takes_any_length ≡ true }
    ensures err_still_takes { (E.state err.new).takes_any_length ≡ true }
{
    match monitor_log(alloc, settings, inputs, out) {
        Ok(()) => Status::Done,
        Err(refusal) => refuse(refusal, err),
    }
}

/// Writes how the cases of a log stand by a model. The model is read and tried before the log is opened.
fn monitor_log<I: Inputs, O: Sink>(
    alloc: Global,
    settings: &Settings,
    inputs: &mut I,
    out: &mut O,
) -> Result<(), Refusal>
    requires states { IsLimit settings.now.states }
    requires out_takes { (O.state out.old).takes_any_length ≡ true }
    ensures lines { OnOk result (IfSome (I.state inputs.old).contents (λ contents. OfWatched settings.now contents
        (λ names list. PrintsAll standard names list (contents settings.now.log) (O.state out.old) (O.state out.new)))) }
    ensures cause { IfErr result (MonitorCause settings.now (I.state inputs.old) (I.state inputs.new) (O.state out.old) (O.state out.new)) }
    ensures left { IfErr result (λ r. IfSome (I.state inputs.old).contents (λ contents. MonitorLeaves settings.now contents
        (I.state inputs.new) (O.state out.old) (O.state out.new) r)) }
    ensures opens { AsksFor (inputs_for Command.Monitor settings.now) (I.state inputs.old) (I.state inputs.new) }
    ensures contents { (I.state inputs.new).contents ≡ (I.state inputs.old).contents }
    ensures later { (I.state inputs.old).faults ≤ (I.state inputs.new).faults }
    ensures out_later { (O.state out.old).faults ≤ (O.state out.new).faults }
    ensures out_still_takes { (O.state out.new).takes_any_length ≡ true }
{
    let model = read_known_model(alloc, &settings.model, inputs)?;
    let names = model.names().in_order()?;
    let list = constraints_over(alloc, &names, &model)?;
    let monitor = monitor_of(alloc, &names, &list, settings.states)?;
    open_named(alloc, &settings.log, inputs)?;
    watch(
        alloc,
        &names,
        &list,
        monitor,
        inputs,
        out,
        &Limits::standard(),
    )?;
    Ok(())
}
