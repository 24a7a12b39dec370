ghost use Rattle.std.specs.Prelude.{◌≡◌, IfOk};
ghost use Rattle.regex_forms.specs.Forms.{tree_of};
ghost use Rattle.regex_forms.specs.Trees.{view};
ghost use Rattle.template_core.specs.declared.kind.Kind.TheVariants.{Init, End, Participation, AtMostOne};

use crate::Form;
use crate::shapes::{a, ax, none_or, star, x};
use std::alloc::{AllocError, Global};

/// `a[ax]*`
pub fn init(alloc: Global) -> Result<Form, AllocError>
    ensures { IfOk result (λ form. view form ≡ tree_of Init) }
{
    Ok(Form::Then(vec![in alloc; a(), star(alloc, ax())?]?))
}

/// `[ax]*a`
pub fn end(alloc: Global) -> Result<Form, AllocError>
    ensures { IfOk result (λ form. view form ≡ tree_of End) }
{
    Ok(Form::Then(vec![in alloc; star(alloc, ax())?, a()]?))
}

/// `x*a[ax]*`
pub fn participation(alloc: Global) -> Result<Form, AllocError>
    ensures { IfOk result (λ form. view form ≡ tree_of Participation) }
{
    Ok(Form::Then(vec![in alloc; star(alloc, x())?, a(), star(alloc, ax())?]?))
}

/// `x*|x*ax*`
pub fn at_most_one(alloc: Global) -> Result<Form, AllocError>
    ensures { IfOk result (λ form. view form ≡ tree_of AtMostOne) }
{
    none_or(
        alloc,
        x(),
        vec![in alloc; star(alloc, x())?, a(), star(alloc, x())?]?,
    )
}
