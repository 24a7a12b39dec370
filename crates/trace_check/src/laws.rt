//! A law of the definitions on checks.

ghost use Rattle.std.specs.Prelude.{◌≡◌, ◌↔◌, List, ℕ, None, All, length};
ghost use Rattle.template_core.specs.declared.constraint.Constraint.{Constraint as ConstraintOf};
ghost use Rattle.trace_check.specs.Checking.{checked};

/// A constraint is kept by all traces exactly where no place of a trace is broken, and then all its activated places are fulfilled.
pub fn kept_where_none_is_broken()
    ensures kept { (names : List (List ℕ)) (list : List ConstraintOf) (log : List (List (List ℕ)))
        → All (λ row. row.kept ≡ length log ↔ row.broken ≡ None) (checked names list log) }
    ensures fulfilled { (names : List (List ℕ)) (list : List ConstraintOf) (log : List (List (List ℕ)))
        → All (λ row. row.broken ≡ None → row.fulfilled ≡ row.activated) (checked names list log) }
{}
