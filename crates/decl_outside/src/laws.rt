//! Laws of the definitions.

ghost use Rattle.std.specs.Prelude.{◌≡◌, ℕ, List, Option};
ghost use Rattle.decl_outside.specs.Inputs.{FailedIn};
ghost use Rattle.decl_outside.specs.PlainInputs.{state_of};
ghost use Rattle.decl_outside.specs.declared.plain_inputs.PlainInputs.{PlainInputs};

/// Over plain inputs a read fault never comes: their count of faults is 0, and no input of them fails.
pub fn plain_inputs_never_fail()
    ensures count { (inputs : PlainInputs) → (state_of inputs).faults ≡ 0 }
    ensures none_fails { (name : Option (List ℕ)) (old new : PlainInputs) → ¬ FailedIn name (state_of old) (state_of new) }
{}
