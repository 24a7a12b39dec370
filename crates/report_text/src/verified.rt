ghost use Rattle.std.specs.Prelude.{◌≡◌, ◌++◌, IfOk, IfErr, OnOk};
ghost use Rattle.report_text.specs.VerdictText.{verdict_text};

use crate::fields::put_number;
use chain_cert::Verdict;
use decl_base::Refusal;
use std::alloc::{AllocError, Global};

/// The text of a verdict on a certificate, one line: `yes`, or the check that fails first and the item of which it fails, by
/// their numbers from 1.
pub fn verdict_text(alloc: Global, verdict: Verdict) -> Result<Vec<u8>, Refusal>
    ensures ok { IfOk result (λ text. text.items ≡ verdict_text verdict) }
    ensures err { IfErr result (λ e. e ≡ Refusal.Memory) }
{
    let mut out = Vec::new(alloc);
    put_verdict(&mut out, verdict)?;
    Ok(out)
}

/// The line of a verdict.
fn put_verdict(out: &mut Vec<u8>, verdict: Verdict) -> Result<(), AllocError>
    ensures { OnOk result (out.new.items ≡ out.old.items ++ verdict_text verdict) }
{
    match verdict {
        Verdict::Yes => out.extend_from_slice(b"yes\n"),
        Verdict::No { check, at } => put_no(out, check, at),
    }
}

/// The line of a check that fails and its item.
fn put_no(out: &mut Vec<u8>, check: u8, at: u32) -> Result<(), AllocError>
    ensures { OnOk result (out.new.items ≡ out.old.items ++ verdict_text (Verdict.No check at)) }
{
    out.extend_from_slice(b"no, check ")?;
    put_number(out, check as u64)?;
    out.extend_from_slice(b", item ")?;
    put_number(out, at as u64)?;
    out.push(b'\n')?;
    Ok(())
}
