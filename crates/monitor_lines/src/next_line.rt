ghost use Rattle.std.specs.Prelude.{◌≡◌, ◌<◌, ◌≤◌, ◌^◌, true, length, IfErr, IfOk, OnErr};
ghost use Rattle.decl_base.specs.Limits.{standard};
ghost use Rattle.decl_outside.specs.Inputs.{KeepsInput};
ghost use Rattle.live_monitor.specs.Stands.{constraints_of, symbols_of};
ghost use Rattle.monitor_lines.specs.Cases.{symbol_count};
ghost use Rattle.monitor_lines.specs.Stepping.{IsReady, NextCause, PutsNext};

use crate::cases::Cases;
use crate::waiting::Texts;
use decl_base::{Limits, Refusal};
use decl_outside::{Inputs, Lines};
use event_log::Alphabet;

/// Goes on to the next line, tries it, and puts its text behind those that wait. Answers whether there was a line.
pub(crate) fn put_next<I: Inputs>(
    names: &Alphabet,
    lines: &mut Lines,
    cases: &mut Cases,
    inputs: &mut I,
    texts: &mut Texts,
    limits: &Limits,
    constraints: u32,
) -> Result<bool, Refusal>
    requires live { lines.old.is_live ≡ true }
    requires open { (I.state inputs.old).is_open ≡ true }
    requires few_lines { lines.old.given < 2 ^ 32 }
    requires ready { IsReady cases.old }
    requires limit { cases.old.found.limit ≡ limits.now.traces }
    requires few { limits.now.traces ≤ standard.traces }
    requires symbols { symbols_of cases.old.monitor ≡ symbol_count names.now.names }
    requires constraints { constraints ≡ length (constraints_of cases.old.monitor) }
    ensures keeps { KeepsInput (I.state inputs.old) (I.state inputs.new) }
    ensures ok { IfOk result (PutsNext limits.now names.now.names lines.old lines.new (I.state inputs.old) (I.state inputs.new)
        cases.old cases.new texts.old.waiting.items texts.new.waiting.items) }
    ensures cause { IfErr result (NextCause limits.now cases.old.found.names lines.old lines.new (I.state inputs.old) (I.state inputs.new)) }
    ensures refused { OnErr result (texts.new.waiting.items ≡ texts.old.waiting.items) }
{
    lines.next(inputs)?;
    let Some(line) = lines.line() else {
        return Ok(false);
    };
    let case = cases.take(names, &line, limits)?;
    cases.put_text(line.number(), case, constraints, &mut texts.line)?;
    texts.waiting.extend_from_slice(&texts.line)?;
    Ok(true)
}
