ghost use Rattle.std.specs.Prelude.{◌≡◌, ◌++◌, ◌∷◌, [], List, ℕ, decimal, replicate, map, string_bytes, length, IfOk, OnOk};
ghost use Rattle.std.specs.List.{join_with_byte};
ghost use Rattle.template_core.specs.Constraints.{IsWellMadeFor};
ghost use Rattle.model_json.specs.Report.{activities_of};
ghost use Rattle.report_text.specs.Fields.{column, columns, quoted, quoted_at, constraint_text};

use event_log::Alphabet;
use serde_json::Value;
use std::alloc::{AllocError, Global};
use template_core::Constraint;
use template_set::{arity, name};

fn put_spaces(out: &mut Vec<u8>, count: usize) -> Result<(), AllocError>
    ensures { OnOk result (out.new.items ≡ out.old.items ++ replicate count 32) }
{
    for _ in 0..count {
        out.push(b' ')?;
    }
    Ok(())
}

/// A text right in a column of a width, and a space.
pub(crate) fn put_column(out: &mut Vec<u8>, width: usize, text: &[u8]) -> Result<(), AllocError>
    ensures { OnOk result (out.new.items ≡ out.old.items ++ column width text.now) }
{
    put_spaces(out, width.saturating_sub(text.len()))?;
    out.extend_from_slice(text)?;
    out.push(b' ')?;
    Ok(())
}

/// Decimal digits.
pub(crate) fn put_number(out: &mut Vec<u8>, number: u64) -> Result<(), AllocError>
    ensures { OnOk result (out.new.items ≡ out.old.items ++ decimal number) }
{
    let mut buffer = itoa::Buffer::new();
    out.extend_from_slice(buffer.format(number).as_bytes())
}

/// Numbers, each in a column of a width.
pub(crate) fn put_columns(
    out: &mut Vec<u8>,
    width: usize,
    numbers: &[u64],
) -> Result<(), AllocError>
    ensures { OnOk result (out.new.items ≡ out.old.items ++ columns width numbers.now) }
{
    for number in numbers {
        let mut buffer = itoa::Buffer::new();
        put_column(out, width, buffer.format(*number).as_bytes())?;
    }
    Ok(())
}

/// A name as a JSON text.
fn quote(alloc: Global, name: &str) -> Result<String, AllocError>
    ensures { IfOk result (λ text. string_bytes text ≡ quoted name.now) }
{
    let value = Value::String(String::from_str(alloc, name)?);
    value.to_string(alloc)
}

/// Each name as a JSON text.
pub(crate) fn quote_all(alloc: Global, names: &Alphabet) -> Result<Vec<String>, AllocError>
    ensures { IfOk result (λ texts. map string_bytes texts.items ≡ map quoted names.now.names) }
{
    let mut texts = Vec::with_capacity(alloc, names.len() as usize)?;
    for id in 0..names.len() {
        texts.push(quote(alloc, names.name(id))?)?;
    }
    Ok(texts)
}

/// A constraint as its template's name and its names, of which `texts` has each as a JSON text.
pub(crate) fn put_constraint(
    out: &mut Vec<u8>,
    texts: &[String],
    constraint: &Constraint,
) -> Result<(), AllocError>
    requires { IsWellMadeFor (length texts.now) constraint.now }
    ensures { OnOk result ((names : List (List ℕ)) → map string_bytes texts.now ≡ map quoted names
        → out.new.items ≡ out.old.items ++ constraint_text names constraint.now) }
{
    out.extend_from_slice(name(constraint.kind).as_bytes())?;
    out.push(b'(')?;
    put_names(out, texts, constraint)?;
    out.push(b')')?;
    Ok(())
}

/// The names of a constraint, joined by commas.
fn put_names(out: &mut Vec<u8>, texts: &[String], constraint: &Constraint) -> Result<(), AllocError>
    requires { IsWellMadeFor (length texts.now) constraint.now }
    ensures { OnOk result ((names : List (List ℕ)) → map string_bytes texts.now ≡ map quoted names
        → out.new.items ≡ out.old.items ++ join_with_byte 44 (map (quoted_at names) (activities_of constraint.now))) }
{
    out.extend_from_slice(texts[constraint.first as usize].as_bytes())?;
    if arity(constraint.kind) == 1 {
        return Ok(());
    }
    out.push(b',')?;
    out.extend_from_slice(texts[constraint.second as usize].as_bytes())?;
    Ok(())
}
