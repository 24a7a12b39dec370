ghost use Rattle.std.specs.Prelude.{◌≡◌, ◌≤◌, IfErr, IfOk};
ghost use Rattle.chain_cert.specs.Checks.{IsVerdict};
ghost use Rattle.chain_cert.specs.Forms.{IsChain};
ghost use Rattle.chain_cert.specs.declared.verdict.Verdict.{Verdict as VerdictOf};
ghost use Rattle.minerful_words.specs.Settings.{inputs_for};
ghost use Rattle.report_text.specs.VerdictText.{verdict_text as text_of_verdict};
ghost use Rattle.minerful_core.specs.Commands.{CommandRefuses, HasOutcome};
ghost use Rattle.minerful_core.specs.Outcome.{answers, status_of_verdict};
ghost use Rattle.minerful_core.specs.Run.{AsksFor, IsEnd};

use crate::answer::Answer;
use crate::reading::read_known_certificate;
use chain_cert::{Verdict, verify};
use decl_base::{Refusal, Status};
use decl_outside::Inputs;
use minerful_words::{Command, Settings};
use report_text::verdict_text;
use std::alloc::Global;

/// The verdict on the certificate that the settings name.
pub(crate) fn verify_certificate<I: Inputs>(
    alloc: Global,
    settings: &Settings,
    inputs: &mut I,
) -> Result<Answer, Refusal>
    ensures text { IfOk result (λ a. HasOutcome Command.Verify settings.now (I.state inputs.old) (answers a.status a.text.items)) }
    ensures end { IfOk result (λ a. IsEnd a.status) }
    ensures refusal { IfErr result (CommandRefuses Command.Verify settings.now (I.state inputs.old) (I.state inputs.new)) }
    ensures opens { AsksFor (inputs_for Command.Verify settings.now) (I.state inputs.old) (I.state inputs.new) }
    ensures contents { (I.state inputs.new).contents ≡ (I.state inputs.old).contents }
    ensures later { (I.state inputs.old).faults ≤ (I.state inputs.new).faults }
{
    let (claim, chain) = read_known_certificate(alloc, &settings.model, inputs)?;
    answer_verdict(alloc, verify(&claim, &chain))
}

/// The text of a verdict, and the status that goes with it.
fn answer_verdict(alloc: Global, verdict: Verdict) -> Result<Answer, Refusal>
    ensures text { IfOk result (λ a. answers a.status a.text.items ≡ answers (status_of_verdict verdict) (text_of_verdict verdict)) }
    ensures end { IfOk result (λ a. IsEnd a.status) }
    ensures err { IfErr result (λ e. e ≡ Refusal.Memory) }
{
    Ok(Answer {
        status: status_of(verdict),
        text: verdict_text(alloc, verdict)?,
    })
}

/// Yes is as wanted, and no differs.
fn status_of(verdict: Verdict) -> Status
    ensures value { result ≡ status_of_verdict verdict }
    ensures end { IsEnd result }
{
    match verdict {
        Verdict::Yes => Status::Done,
        Verdict::No { .. } => Status::Differs,
    }
}
