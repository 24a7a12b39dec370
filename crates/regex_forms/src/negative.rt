ghost use Rattle.std.specs.Prelude.{◌≡◌, IfOk};
ghost use Rattle.regex_forms.specs.Forms.{tree_of};
ghost use Rattle.regex_forms.specs.Trees.{view};
ghost use Rattle.template_core.specs.declared.kind.Kind.TheVariants.{NotCoExistence, NotSuccession, NotChainSuccession};

use crate::Form;
use crate::shapes::{a, ax, bx, rounds, star, x};
use std::alloc::{AllocError, Global};

/// `[ax]*|[bx]*`
pub fn not_co_existence(alloc: Global) -> Result<Form, AllocError>
    ensures { IfOk result (λ form. view form ≡ tree_of NotCoExistence) }
{
    Ok(Form::Any(vec![in alloc; star(alloc, ax())?, star(alloc, bx())?]?))
}

/// `[bx]*[ax]*`
pub fn not_succession(alloc: Global) -> Result<Form, AllocError>
    ensures { IfOk result (λ form. view form ≡ tree_of NotSuccession) }
{
    Ok(Form::Then(vec![in alloc; star(alloc, bx())?, star(alloc, ax())?]?))
}

/// `([bx]|aa*x)*a*`
pub fn not_chain_succession(alloc: Global) -> Result<Form, AllocError>
    ensures { IfOk result (λ form. view form ≡ tree_of NotChainSuccession) }
{
    let apart = rounds(alloc, bx(), vec![in alloc; a(), star(alloc, a())?, x()]?)?;
    Ok(Form::Then(vec![in alloc; apart, star(alloc, a())?]?))
}
