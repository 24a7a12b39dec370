ghost use Rattle.std.specs.Prelude.{◌≡◌, ◌≤◌, length, All, is_some, IfOk, IfErr};
ghost use Rattle.std.specs.List.{list_any};
ghost use Rattle.template_core.specs.Constraints.{IsWellMadeFor};
ghost use Rattle.event_log.specs.Logs.{named};
ghost use Rattle.minerful_words.specs.Settings.{inputs_for};
ghost use Rattle.minerful_core.specs.Commands.{CommandRefuses, HasOutcome};
ghost use Rattle.minerful_core.specs.Outcome.{IsCheckOutcome, answers};
ghost use Rattle.minerful_core.specs.Reading.{IsWithin};
ghost use Rattle.minerful_core.specs.Run.{AsksFor, IsEnd};

use crate::answer::Answer;
use crate::reading::{read_known_model, read_log};
use decl_base::{Refusal, Status};
use decl_outside::Inputs;
use event_log::{Alphabet, Log};
use minerful_words::{Command, Settings};
use model_json::KnownModel;
use report_text::check_table;
use std::alloc::Global;
use trace_check::{CheckReport, check};

/// The table of the check of the log that the settings name against their model, which is read and tried first.
pub(crate) fn check_log<I: Inputs>(
    alloc: Global,
    settings: &Settings,
    inputs: &mut I,
) -> Result<Answer, Refusal>
    ensures text { IfOk result (λ a. HasOutcome Command.Check settings.now (I.state inputs.old) (answers a.status a.text.items)) }
    ensures end { IfOk result (λ a. IsEnd a.status) }
    ensures refusal { IfErr result (CommandRefuses Command.Check settings.now (I.state inputs.old) (I.state inputs.new)) }
    ensures opens { AsksFor (inputs_for Command.Check settings.now) (I.state inputs.old) (I.state inputs.new) }
    ensures contents { (I.state inputs.new).contents ≡ (I.state inputs.old).contents }
    ensures later { (I.state inputs.old).faults ≤ (I.state inputs.new).faults }
{
    let model = read_known_model(alloc, &settings.model, inputs)?;
    let (names, log) = read_log(alloc, settings, inputs)?;
    compare(alloc, &model, &names, &log)
}

/// The table of the check of a log, and whether some trace of it breaks some constraint.
fn compare(
    alloc: Global,
    model: &KnownModel,
    names: &Alphabet,
    log: &Log,
) -> Result<Answer, Refusal>
    requires made { All (IsWellMadeFor (length model.now.names)) model.now.constraints }
    requires within { IsWithin names.now.names log.now.traces }
    ensures text { IfOk result (λ a. IsCheckOutcome model.now (named names.now.names log.now.traces) (answers a.status a.text.items)) }
    ensures end { IfOk result (λ a. IsEnd a.status) }
    ensures err { IfErr result (λ e. e ≡ Refusal.Memory) }
{
    let report = check(alloc, model.names(), model.constraints(), names, log)?;
    let text = check_table(alloc, model.names(), model.constraints(), &report)?;
    let status = if is_broken(&report) {
        Status::Differs
    } else {
        Status::Done
    };
    Ok(Answer { status, text })
}

/// Whether some trace breaks some constraint.
fn is_broken(report: &CheckReport) -> bool
    ensures { result ≡ list_any (λ row. is_some row.broken) report.now }
{
    report.rows().iter().any(|row| row.broken.is_some())
}
