ghost use Rattle.std.specs.Prelude.{◌≡◌, ◌≤◌, [], length, true, IfErr, OnErr, OnOk};
ghost use Rattle.decl_outside.specs.Faults.{Rose};
ghost use Rattle.decl_outside.specs.Lines.{line_length};
ghost use Rattle.decl_outside.specs.Sink.{HoldsFront, WritesAll};
ghost use Rattle.monitor_lines.specs.Stepping.{HandsOver};

use decl_base::Refusal;
use decl_outside::{Failed, Lines, Sink, write_all};
use std::alloc::Global;

/// Texts that wait are handed over where they have as many bytes, or more.
const ENOUGH: usize = 64 * 1024;

/// The texts of lines that were read at once.
#[derive(Drop)]
pub(crate) struct Texts {
    /// That of the last line.
    pub line: Vec<u8>,
    /// Those that the sink doesn't have yet.
    pub waiting: Vec<u8>,
}

impl Texts {
    /// None.
    pub(crate) fn new(alloc: Global) -> Texts
        ensures { result.waiting.items ≡ [] }
    {
        Texts {
            line: Vec::new(alloc),
            waiting: Vec::new(alloc),
        }
    }
}

/// Hands the texts that wait to the sink where they are many, or where the next line isn't read yet.
pub(crate) fn settle<O: Sink>(out: &mut O, texts: &mut Texts, lines: &Lines) -> Result<(), Refusal>
    requires { (O.state out.old).takes_any_length ≡ true }
    ensures ok { OnOk result (HandsOver (O.state out.old) (O.state out.new) texts.old.waiting.items texts.new.waiting.items) }
    ensures all { OnOk result (length lines.now.held ≤ line_length lines.now.held → texts.new.waiting.items ≡ []) }
    ensures later { (O.state out.old).faults ≤ (O.state out.new).faults }
    ensures rose { OnErr result (Rose (O.state out.old).faults (O.state out.new).faults) }
    ensures takes { OnErr result ((O.state out.new).takes_any_length ≡ true) }
    ensures front { OnErr result (HoldsFront (O.state out.old) (O.state out.new) texts.old.waiting.items) }
    ensures err { IfErr result (λ e. e ≡ Refusal.WriteFault) }
{
    if lines.holds_line() && texts.waiting.len() < ENOUGH {
        return Ok(());
    }
    hand_over(out, texts)
}

/// Hands the texts that wait to the sink, and none waits then.
pub(crate) fn hand_over<O: Sink>(out: &mut O, texts: &mut Texts) -> Result<(), Refusal>
    requires { (O.state out.old).takes_any_length ≡ true }
    ensures writes { WritesAll (O.state out.old) (O.state out.new) texts.old.waiting.items result }
    ensures none { texts.new.waiting.items ≡ [] }
    ensures err { IfErr result (λ e. e ≡ Refusal.WriteFault) }
{
    let written = write_all(out, &texts.waiting);
    texts.waiting.clear();
    match written {
        Ok(()) => Ok(()),
        Err(Failed) => Err(Refusal::WriteFault),
    }
}
