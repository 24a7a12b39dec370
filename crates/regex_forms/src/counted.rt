ghost use Rattle.std.specs.Prelude.{◌≡◌, ◌++◌, IfOk, OnOk, map, replicate};
ghost use Rattle.regex_forms.specs.Forms.{tree_of};
ghost use Rattle.regex_forms.specs.Trees.{view};
ghost use Rattle.template_core.specs.declared.kind.Kind.TheVariants.{Exactly, AtLeast, AtMost};

use crate::Form;
use crate::copying::copy;
use crate::shapes::{a, ax, star, x};
use std::alloc::{AllocError, Global};

/// `x*`, then `ax*` n times.
pub fn exactly(alloc: Global, n: u8) -> Result<Form, AllocError>
    ensures { IfOk result (λ form. view form ≡ tree_of (Exactly n)) }
{
    let one = Form::Then(vec![in alloc; a(), star(alloc, x())?]?);
    let mut parts = vec![in alloc; star(alloc, x())?]?;
    repeat(alloc, &mut parts, &one, n)?;
    Ok(Form::Then(parts))
}

/// `x*a` n times, then `[ax]*`.
pub fn at_least(alloc: Global, n: u8) -> Result<Form, AllocError>
    ensures { IfOk result (λ form. view form ≡ tree_of (AtLeast n)) }
{
    let one = Form::Then(vec![in alloc; star(alloc, x())?, a()]?);
    let mut parts = Vec::new(alloc);
    repeat(alloc, &mut parts, &one, n)?;
    parts.push(star(alloc, ax())?)?;
    Ok(Form::Then(parts))
}

/// `x*`, then `(ax*)?` n times.
pub fn at_most(alloc: Global, n: u8) -> Result<Form, AllocError>
    ensures { IfOk result (λ form. view form ≡ tree_of (AtMost n)) }
{
    let one = Form::Then(vec![in alloc; a(), star(alloc, x())?]?);
    let maybe = Form::Maybe(Box::new(alloc, one)?);
    let mut parts = vec![in alloc; star(alloc, x())?]?;
    repeat(alloc, &mut parts, &maybe, n)?;
    Ok(Form::Then(parts))
}

/// Puts the part behind the others, so many times.
fn repeat(alloc: Global, parts: &mut Vec<Form>, part: &Form, times: u8) -> Result<(), AllocError>
    ensures { OnOk result (map view parts.new.items ≡ map view parts.old.items ++ replicate times (view part.now)) }
{
    for _ in 0..times {
        parts.push(copy(alloc, part)?)?;
    }
    Ok(())
}
