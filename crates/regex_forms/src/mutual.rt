ghost use Rattle.std.specs.Prelude.{◌≡◌, List, [], ◌∷◌, IfOk};
ghost use Rattle.regex_forms.specs.Forms.{abx, sequence, tree_of};
ghost use Rattle.regex_forms.specs.Trees.{star, view};
ghost use Rattle.template_core.specs.declared.kind.Kind.TheVariants.{ChainSuccession, AlternateSuccession, Succession, CoExistence};

use crate::Form;
use crate::shapes::{a, abx, b, none_or, rounds, star, x};
use std::alloc::{AllocError, Global};

/// `(x|ab)*`
pub fn chain_succession(alloc: Global) -> Result<Form, AllocError>
    ensures { IfOk result (λ form. view form ≡ tree_of ChainSuccession) }
{
    rounds(alloc, x(), vec![in alloc; a(), b()]?)
}

/// `(x|ax*b)*`
pub fn alternate_succession(alloc: Global) -> Result<Form, AllocError>
    ensures { IfOk result (λ form. view form ≡ tree_of AlternateSuccession) }
{
    rounds(alloc, x(), vec![in alloc; a(), star(alloc, x())?, b()]?)
}

/// `x*|x*a[abx]*bx*`
pub fn succession(alloc: Global) -> Result<Form, AllocError>
    ensures { IfOk result (λ form. view form ≡ tree_of Succession) }
{
    let from_a_to_b = vec![in alloc;
        star(alloc, x())?,
        a(),
        star(alloc, abx())?,
        b(),
        star(alloc, x())?,
    ]?;
    none_or(alloc, x(), from_a_to_b)
}

/// `x*|[abx]*a[abx]*b[abx]*|[abx]*b[abx]*a[abx]*`
pub fn co_existence(alloc: Global) -> Result<Form, AllocError>
    ensures { IfOk result (λ form. view form ≡ tree_of CoExistence) }
{
    let onward = both(alloc, a(), b())?;
    let back = both(alloc, b(), a())?;
    Ok(Form::Any(vec![in alloc; star(alloc, x())?, onward, back]?))
}

/// One letter and later another, with anything round them.
fn both(alloc: Global, one: Form, later: Form) -> Result<Form, AllocError>
    ensures { IfOk result (λ form. view form ≡ sequence (star abx ∷ view one ∷ star abx ∷ view later ∷ star abx ∷ [])) }
{
    Ok(Form::Then(vec![in alloc;
        star(alloc, abx())?,
        one,
        star(alloc, abx())?,
        later,
        star(alloc, abx())?,
    ]?))
}
