ghost use Rattle.std.specs.Prelude.{◌≡◌, ◌↔◌, IsTrue, IfOk, IfErr};
ghost use Rattle.regex_forms.specs.Matching.{Matches};
ghost use Rattle.regex_forms.specs.Trees.{view};

use crate::Form;
use crate::copying::copy;
use crate::derivatives::step;
use crate::empty::some_has_empty;
use decl_base::Refusal;
use std::alloc::Global;
use template_core::Class;

/// Whether the form matches the word, by derivatives. `Memory` is the only refusal.
pub fn matches(alloc: Global, form: &Form, word: &[Class]) -> Result<bool, Refusal>
    ensures ok { IfOk result (λ yes. IsTrue yes ↔ Matches (view form.now) word.now) }
    ensures err { IfErr result (λ e. e ≡ Refusal.Memory) }
{
    let mut forms = vec![in alloc; copy(alloc, form)?]?;
    for class in word {
        forms = step(alloc, &forms, *class)?;
    }
    Ok(some_has_empty(&forms))
}
