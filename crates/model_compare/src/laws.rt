ghost use Rattle.std.specs.Prelude.{◌≡◌, ℕ, List};
ghost use Rattle.template_core.specs.declared.constraint.Constraint.{Constraint as ConstraintOf};
ghost use Rattle.model_compare.specs.Comparison.{Comparison, IsComparison, relation_of};

/// Which of the two traces there are tells the relation.
pub fn relation_is_told_by_the_traces()
    ensures { (n : ℕ) (first second : List ConstraintOf) (c : Comparison) → IsComparison n first second c
        → c.relation ≡ relation_of c.only_first c.only_second }
{}
