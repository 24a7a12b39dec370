ghost use Rattle.std.specs.Prelude.{◌≡◌, ◌++◌, IfOk, IfErr, OnOk};
ghost use Rattle.regex_forms.specs.Printing.{letters, set_text, bracketed_if, is_set, is_one_of, text, text_in_order, text_of_any};
ghost use Rattle.regex_forms.specs.Trees.{view, parts_view};

use crate::Form;
use decl_base::Refusal;
use std::alloc::{AllocError, Global};

/// The text of the form, in ASCII: `a`, `b` and `x` are the classes First, Second and Other. `Memory` is the only refusal.
pub fn print(alloc: Global, form: &Form) -> Result<Vec<u8>, Refusal>
    ensures ok { IfOk result (λ bytes. bytes.items ≡ text (view form.now)) }
    ensures err { IfErr result (λ e. e ≡ Refusal.Memory) }
{
    let mut out = Vec::new(alloc);
    write(&mut out, form)?;
    Ok(out)
}

#[cycle(write)]
fn write(out: &mut Vec<u8>, form: &Form) -> Result<(), AllocError>
    ensures { OnOk result (out.new.items ≡ out.old.items ++ text (view form.now)) }
{
    match form {
        Form::Set {
            first,
            second,
            other,
        } => write_set(out, *first, *second, *other),
        Form::Then(parts) => write_in_order(out, parts),
        Form::Any(parts) => write_any(out, parts),
        Form::Star(part) => {
            write_part(out, part, !is_set(part))?;
            out.push(b'*')?;
            Ok(())
        }
        Form::Maybe(part) => {
            write_part(out, part, !is_set(part))?;
            out.push(b'?')?;
            Ok(())
        }
    }
}

#[cycle(write)]
fn write_part(out: &mut Vec<u8>, part: &Form, bracketed: bool) -> Result<(), AllocError>
    ensures { OnOk result (out.new.items ≡ out.old.items ++ bracketed_if bracketed (text (view part.now))) }
{
    if bracketed {
        out.push(b'(')?;
        write(out, part)?;
        out.push(b')')?;
        Ok(())
    } else {
        write(out, part)
    }
}

#[cycle(write)]
fn write_in_order(out: &mut Vec<u8>, parts: &[Form]) -> Result<(), AllocError>
    ensures { OnOk result (out.new.items ≡ out.old.items ++ text_in_order (parts_view parts.now)) }
{
    for i in 0..parts.len() {
        write_part(out, &parts[i], is_any(&parts[i]))?;
    }
    Ok(())
}

#[cycle(write)]
fn write_any(out: &mut Vec<u8>, parts: &[Form]) -> Result<(), AllocError>
    ensures { OnOk result (out.new.items ≡ out.old.items ++ text_of_any (parts_view parts.now)) }
{
    for i in 0..parts.len() {
        if i > 0 {
            out.push(b'|')?;
        }
        write(out, &parts[i])?;
    }
    Ok(())
}

fn write_set(out: &mut Vec<u8>, first: bool, second: bool, other: bool) -> Result<(), AllocError>
    ensures { OnOk result (out.new.items ≡ out.old.items ++ set_text (letters first second other)) }
{
    let text: &[u8] = match (first, second, other) {
        (true, false, false) => b"a",
        (false, true, false) => b"b",
        (false, false, true) => b"x",
        (true, true, false) => b"[ab]",
        (true, false, true) => b"[ax]",
        (false, true, true) => b"[bx]",
        (true, true, true) => b"[abx]",
        (false, false, false) => b"[]",
    };
    out.extend_from_slice(text)
}

fn is_set(form: &Form) -> bool
    ensures { result ≡ is_set (view form.now) }
{
    match form {
        Form::Set { .. } => true,
        Form::Then(_) | Form::Any(_) | Form::Star(_) | Form::Maybe(_) => false,
    }
}

fn is_any(form: &Form) -> bool
    ensures { result ≡ is_one_of (view form.now) }
{
    match form {
        Form::Any(_) => true,
        Form::Set { .. } | Form::Then(_) | Form::Star(_) | Form::Maybe(_) => false,
    }
}
