ghost use Rattle.std.specs.Prelude.{◌≤◌, IfOk, IfErr};
ghost use Rattle.decl_base.specs.Limits.{standard};
ghost use Rattle.minerful_words.specs.Grammars.{IsLimit, most_seed};
ghost use Rattle.minerful_words.specs.Settings.{AreFractions};
ghost use Rattle.strings_log.specs.StringLog.{string_log};
ghost use Rattle.minerful_core.specs.Outcome.{IsLogOutcome, IsOutcomeOf, answers, refuses, sample_of};
ghost use Rattle.minerful_core.specs.Refusing.{MayRefuse};
ghost use Rattle.minerful_core.specs.Run.{IsEnd};

use crate::answer::Answer;
use crate::generator::generate;
use crate::mining::summary;
use crate::text_input::TextInput;
use decl_base::{Limits, Refusal, Status};
use minerful_words::{Command, Settings};
use std::alloc::Global;
use strings_log::feed_strings;

/// The number of traces of the log that is generated.
const TRACES: u64 = 2_000;

/// The greatest length of a trace.
const LENGTH: u64 = 12;

/// The number of letters.
const LETTERS: u64 = 6;

/// The summary of a generated log that is mined.
pub(crate) fn sample(alloc: Global, settings: &Settings) -> Result<Answer, Refusal>
    requires thresholds { AreFractions settings.now.thresholds }
    requires states { IsLimit settings.now.states }
    requires seed { settings.now.seed ≤ most_seed }
    ensures text { IfOk result (λ a. IsOutcomeOf (IsLogOutcome Command.Sample settings.now) (string_log standard (sample_of settings.now.seed))
        (answers a.status a.text.items)) }
    ensures end { IfOk result (λ a. IsEnd a.status) }
    ensures refusal { IfErr result (MayRefuse ⊥ (λ r. IsOutcomeOf (IsLogOutcome Command.Sample settings.now) (string_log standard
        (sample_of settings.now.seed)) (refuses r))) }
{
    let text = generate(alloc, settings.seed, TRACES, LENGTH, LETTERS)?;
    let (names, kb) = feed_strings(alloc, &mut TextInput::of(text), &Limits::standard())?;
    let text = summary(alloc, settings, &names, &kb)?;
    Ok(Answer {
        status: Status::Done,
        text,
    })
}
