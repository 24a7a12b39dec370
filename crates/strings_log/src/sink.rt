ghost use Rattle.std.specs.Prelude.{◌≡◌, ℕ, List, IfErr, OnOk};
ghost use Rattle.decl_base.specs.declared.limits.Limits.{Limits};
ghost use Rattle.strings_log.specs.Sink.{HasRoomFor, Takes};

use decl_base::Refusal;
use event_log::Log;

/// What takes the traces of a log one after another, by the numbers of its activities.
pub trait TraceSink {
    /// That these traces went in, so many activities are known, and traces may go in up to these limits.
    ghost holds: { Self → Limits → ℕ → List (List ℕ) → Type 0 };

    /// Takes a trace, after which so many activities are known.
    fn take(&mut self, activities: u32, trace: &[u32]) -> Result<(), Refusal>
        requires { HasRoomFor (holds self.old) activities trace.now }
        ensures ok { OnOk result (Takes (holds self.old) (holds self.new) activities trace.now) }
        ensures err { IfErr result (λ e. e ≡ Refusal.Memory) };
}

impl TraceSink for Log {
    ghost use Rattle.std.specs.Prelude.{◌≡◌};
    ghost use Rattle.strings_log.specs.Feeding.{traces_within};

    ghost holds = { λ log limits activities traces. log ≡ traces_within limits traces };

    fn take(&mut self, _activities: u32, trace: &[u32]) -> Result<(), Refusal> {
        self.push_trace(trace)
    }
}
