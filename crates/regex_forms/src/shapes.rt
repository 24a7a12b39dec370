ghost use Rattle.std.specs.Prelude.{◌≡◌, true, false, List, [], ◌∷◌, IfOk};
ghost use Rattle.regex_forms.specs.Forms.{a, b, x, ax, bx, abx, choice};
ghost use Rattle.regex_forms.specs.Trees.{view, parts_view, set as the_set, in_order, star};

use crate::Form;
use std::alloc::{AllocError, Global};

/// `a`
pub fn a() -> Form
    ensures { view result ≡ a }
{
    set(true, false, false)
}

/// `b`
pub fn b() -> Form
    ensures { view result ≡ b }
{
    set(false, true, false)
}

/// `x`
pub fn x() -> Form
    ensures { view result ≡ x }
{
    set(false, false, true)
}

/// `[ax]`
pub fn ax() -> Form
    ensures { view result ≡ ax }
{
    set(true, false, true)
}

/// `[bx]`
pub fn bx() -> Form
    ensures { view result ≡ bx }
{
    set(false, true, true)
}

/// `[abx]`
pub fn abx() -> Form
    ensures { view result ≡ abx }
{
    set(true, true, true)
}

fn set(first: bool, second: bool, other: bool) -> Form
    ensures { view result ≡ the_set first second other }
{
    Form::Set {
        first,
        second,
        other,
    }
}

/// Any number of the part.
pub fn star(alloc: Global, part: Form) -> Result<Form, AllocError>
    ensures { IfOk result (λ form. view form ≡ star (view part)) }
{
    Ok(Form::Star(Box::new(alloc, part)?))
}

/// Any number of times: the set, or the parts one after the other.
pub fn rounds(alloc: Global, set: Form, parts: Vec<Form>) -> Result<Form, AllocError>
    ensures { IfOk result (λ form. view form ≡ star (choice (view set ∷ in_order (parts_view parts.items) ∷ []))) }
{
    star(alloc, Form::Any(vec![in alloc; set, Form::Then(parts)]?))
}

/// Any number of the set, or the parts one after the other.
pub fn none_or(alloc: Global, set: Form, parts: Vec<Form>) -> Result<Form, AllocError>
    ensures { IfOk result (λ form. view form ≡ choice (star (view set) ∷ in_order (parts_view parts.items) ∷ [])) }
{
    Ok(Form::Any(vec![in alloc; star(alloc, set)?, Form::Then(parts)]?))
}
