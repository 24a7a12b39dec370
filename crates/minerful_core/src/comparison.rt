ghost use Rattle.std.specs.Prelude.{◌≡◌, ◌≤◌, IfOk, IfErr};
ghost use Rattle.minerful_words.specs.Grammars.{IsLimit};
ghost use Rattle.minerful_words.specs.Settings.{inputs_for};
ghost use Rattle.model_json.specs.Model.{IsModel};
ghost use Rattle.minerful_core.specs.Commands.{CommandRefuses, HasOutcome};
ghost use Rattle.minerful_core.specs.Outcome.{IsComparisonOutcome, answers, refuses, status_of_relation};
ghost use Rattle.minerful_core.specs.Refusing.{MayRefuse};
ghost use Rattle.minerful_core.specs.Run.{AsksFor, IsEnd};

use crate::answer::Answer;
use crate::naming::{constraints_over, names_of_both, symbols_of};
use crate::reading::read_known_model;
use decl_base::{Refusal, Status};
use decl_outside::Inputs;
use minerful_words::{Command, Settings};
use model_compare::{Relation, compare};
use model_json::KnownModel;
use report_text::compared_text;
use std::alloc::Global;

/// What the two models that the settings name come to, compared. The first is read and tried before the second is opened.
pub(crate) fn compare_models<I: Inputs>(
    alloc: Global,
    settings: &Settings,
    inputs: &mut I,
) -> Result<Answer, Refusal>
    requires states { IsLimit settings.now.states }
    ensures text { IfOk result (λ a. HasOutcome Command.Compare settings.now (I.state inputs.old) (answers a.status a.text.items)) }
    ensures end { IfOk result (λ a. IsEnd a.status) }
    ensures refusal { IfErr result (CommandRefuses Command.Compare settings.now (I.state inputs.old) (I.state inputs.new)) }
    ensures opens { AsksFor (inputs_for Command.Compare settings.now) (I.state inputs.old) (I.state inputs.new) }
    ensures contents { (I.state inputs.new).contents ≡ (I.state inputs.old).contents }
    ensures later { (I.state inputs.old).faults ≤ (I.state inputs.new).faults }
{
    let first = read_known_model(alloc, &settings.model, inputs)?;
    let second = read_known_model(alloc, &settings.log, inputs)?;
    compare_known(alloc, settings.states, &first, &second)
}

/// The text of two models compared over the names of both and one symbol more, and whether the same traces keep them.
fn compare_known(
    alloc: Global,
    states: u64,
    first: &KnownModel,
    second: &KnownModel,
) -> Result<Answer, Refusal>
    requires states { IsLimit states }
    requires first { IsModel first.now }
    requires second { IsModel second.now }
    ensures text { IfOk result (λ a. IsComparisonOutcome states first.now second.now (answers a.status a.text.items)) }
    ensures end { IfOk result (λ a. IsEnd a.status) }
    ensures refusal { IfErr result (MayRefuse ⊥ (λ r. IsComparisonOutcome states first.now second.now (refuses r))) }
{
    let names = names_of_both(alloc, first, second)?;
    let one = constraints_over(alloc, &names, first)?;
    let other = constraints_over(alloc, &names, second)?;
    let compared = compare(alloc, &one, &other, symbols_of(&names), states)?;
    let text = compared_text(alloc, &names, &compared)?;
    Ok(Answer {
        status: status_of(compared.relation()),
        text,
    })
}

/// Models differ where the same traces don't keep both.
fn status_of(relation: Relation) -> Status
    ensures value { result ≡ status_of_relation relation }
    ensures end { IsEnd result }
{
    match relation {
        Relation::Equal => Status::Done,
        Relation::Stronger | Relation::Weaker | Relation::Neither => Status::Differs,
    }
}
