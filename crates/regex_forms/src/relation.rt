ghost use Rattle.std.specs.Prelude.{◌≡◌, IfOk};
ghost use Rattle.regex_forms.specs.Forms.{tree_of};
ghost use Rattle.regex_forms.specs.Trees.{view};
ghost use Rattle.template_core.specs.declared.kind.Kind.TheVariants.{ChainResponse, AlternateResponse, Response, ChainPrecedence, AlternatePrecedence, Precedence, RespondedExistence};

use crate::Form;
use crate::shapes::{a, abx, ax, b, bx, none_or, rounds, star, x};
use std::alloc::{AllocError, Global};

/// `([bx]|ab)*`
pub fn chain_response(alloc: Global) -> Result<Form, AllocError>
    ensures { IfOk result (λ form. view form ≡ tree_of ChainResponse) }
{
    rounds(alloc, bx(), vec![in alloc; a(), b()]?)
}

/// `([bx]|ax*b)*`
pub fn alternate_response(alloc: Global) -> Result<Form, AllocError>
    ensures { IfOk result (λ form. view form ≡ tree_of AlternateResponse) }
{
    rounds(alloc, bx(), vec![in alloc; a(), star(alloc, x())?, b()]?)
}

/// `([bx]|a[ax]*b)*`
pub fn response(alloc: Global) -> Result<Form, AllocError>
    ensures { IfOk result (λ form. view form ≡ tree_of Response) }
{
    rounds(alloc, bx(), vec![in alloc; a(), star(alloc, ax())?, b()]?)
}

/// `([ax]|ab)*`
pub fn chain_precedence(alloc: Global) -> Result<Form, AllocError>
    ensures { IfOk result (λ form. view form ≡ tree_of ChainPrecedence) }
{
    rounds(alloc, ax(), vec![in alloc; a(), b()]?)
}

/// `(x*a[ax]*b)*[ax]*`
pub fn alternate_precedence(alloc: Global) -> Result<Form, AllocError>
    ensures { IfOk result (λ form. view form ≡ tree_of AlternatePrecedence) }
{
    let each_b = vec![in alloc; star(alloc, x())?, a(), star(alloc, ax())?, b()]?;
    let rounds = star(alloc, Form::Then(each_b))?;
    Ok(Form::Then(vec![in alloc; rounds, star(alloc, ax())?]?))
}

/// `x*|x*a[abx]*`
pub fn precedence(alloc: Global) -> Result<Form, AllocError>
    ensures { IfOk result (λ form. view form ≡ tree_of Precedence) }
{
    none_or(
        alloc,
        x(),
        vec![in alloc; star(alloc, x())?, a(), star(alloc, abx())?]?,
    )
}

/// `[bx]*|[abx]*b[abx]*`
pub fn responded_existence(alloc: Global) -> Result<Form, AllocError>
    ensures { IfOk result (λ form. view form ≡ tree_of RespondedExistence) }
{
    none_or(
        alloc,
        bx(),
        vec![in alloc; star(alloc, abx())?, b(), star(alloc, abx())?]?,
    )
}
