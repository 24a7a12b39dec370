ghost use Rattle.std.specs.Prelude.{◌≡◌, ◌≤◌, IfOk, IfErr};
ghost use Rattle.minerful_words.specs.Grammars.{IsLimit};
ghost use Rattle.minerful_words.specs.Settings.{inputs_for};
ghost use Rattle.model_json.specs.Model.{IsModel};
ghost use Rattle.minerful_core.specs.Commands.{CommandRefuses, HasOutcome};
ghost use Rattle.minerful_core.specs.Outcome.{IsAnalysisOutcome, answers, refuses};
ghost use Rattle.minerful_core.specs.Refusing.{MayRefuse};
ghost use Rattle.minerful_core.specs.Run.{AsksFor, IsEnd};

use crate::answer::Answer;
use crate::naming::{constraints_over, symbols_of};
use crate::reading::read_known_model;
use decl_base::{Refusal, Status};
use decl_outside::Inputs;
use minerful_words::{Command, Settings};
use model_compare::analyse;
use model_json::KnownModel;
use report_text::analysed_text;
use std::alloc::Global;

/// What the model that the settings name comes to, analysed.
pub(crate) fn analyse_model<I: Inputs>(
    alloc: Global,
    settings: &Settings,
    inputs: &mut I,
) -> Result<Answer, Refusal>
    requires states { IsLimit settings.now.states }
    ensures text { IfOk result (λ a. HasOutcome Command.Analyse settings.now (I.state inputs.old) (answers a.status a.text.items)) }
    ensures end { IfOk result (λ a. IsEnd a.status) }
    ensures refusal { IfErr result (CommandRefuses Command.Analyse settings.now (I.state inputs.old) (I.state inputs.new)) }
    ensures opens { AsksFor (inputs_for Command.Analyse settings.now) (I.state inputs.old) (I.state inputs.new) }
    ensures contents { (I.state inputs.new).contents ≡ (I.state inputs.old).contents }
    ensures later { (I.state inputs.old).faults ≤ (I.state inputs.new).faults }
{
    let model = read_known_model(alloc, &settings.model, inputs)?;
    analyse_known(alloc, settings.states, settings.first, &model)
}

/// The text of a model analysed over its names and one symbol more, with so many of its traces.
fn analyse_known(
    alloc: Global,
    states: u64,
    first: u32,
    model: &KnownModel,
) -> Result<Answer, Refusal>
    requires states { IsLimit states }
    requires model { IsModel model.now }
    ensures text { IfOk result (λ a. IsAnalysisOutcome states first model.now (answers a.status a.text.items)) }
    ensures end { IfOk result (λ a. IsEnd a.status) }
    ensures refusal { IfErr result (MayRefuse ⊥ (λ r. IsAnalysisOutcome states first model.now (refuses r))) }
{
    let names = model.names().in_order()?;
    let list = constraints_over(alloc, &names, model)?;
    let analysed = analyse(alloc, &list, symbols_of(&names), states, first)?;
    let text = analysed_text(alloc, &names, &analysed)?;
    Ok(Answer {
        status: Status::Done,
        text,
    })
}
