ghost use Rattle.std.specs.Prelude.{◌≡◌, ◌↔◌, ◌⊎◌, ℕ, ◌++◌, ◌∷◌, [], List, All, Some, false, length, slice_get};
ghost use Rattle.dfa_core.specs.Languages.{HasNoMember};
ghost use Rattle.dfa_core.specs.Traces.{IsTrace};
ghost use Rattle.template_core.specs.Constraints.{IsWellMadeFor};
ghost use Rattle.template_core.specs.declared.constraint.Constraint.{Constraint as ConstraintOf};
ghost use Rattle.reduce_model.specs.Deciding.{IsAt, after, before, is_consistent, is_kept, those};
ghost use Rattle.reduce_model.specs.Keeping.{IsKeepable, KeepsAll};
ghost use Rattle.reduce_model.specs.Reduction.{Breaks, Implies, IsReduction, Reduction};
ghost use Rattle.reduce_model.specs.Sifting.{IsSift, Sifting};
ghost use Rattle.reduce_model.specs.Within.{IsReducedWithin, IsReductionWithin, IsSiftWithin, IsWideList, has_witness};
ghost use Rattle.reduce_model.specs.declared.decision.Decision.{Decision as DecisionOf};
ghost use Rattle.reduce_model.specs.declared.decision.Decision.TheVariants.{Kept};

/// The reduced model keeps exactly the traces of the conflict-free model within the limit.
pub fn model_within_keeps_the_traces()
    ensures { (n s : ℕ) (list : List ConstraintOf) (decisions : List DecisionOf) → All (IsWellMadeFor n) list → IsReducedWithin n s list decisions
        → (w : List ℕ) → IsTrace n w
        → KeepsAll (those is_kept list decisions) w ↔ KeepsAll (those is_consistent list decisions) w }
{}

/// Some trace keeps it.
pub fn model_within_is_keepable()
    ensures { (n s : ℕ) (list : List ConstraintOf) (reduction : Reduction) → IsReductionWithin n s list reduction
        → IsKeepable n (those is_kept list reduction.decisions) }
{}

/// Beside each constraint of the model that isn't untested stands a trace that keeps all the others of the model and breaks it.
pub fn witnesses_within_break_one_each()
    ensures { (n s : ℕ) (list : List ConstraintOf) (reduction : Reduction) → IsReductionWithin n s list reduction
        → (place : ℕ) (c : ConstraintOf) → IsAt list reduction.decisions place c Kept
        → (w : List ℕ) × (slice_get reduction.witnesses (length (before has_witness place list reduction.decisions)) ≡ Some w) × IsTrace n w
        × Breaks (before is_kept place list reduction.decisions ++ after is_kept place list reduction.decisions) c w }
{}

/// Each candidate that is left out is implied by the reduced model, conflicts with the constraints of the conflict-free model before it, or would
/// have made their list wide.
pub fn left_out_within_is_implied_conflicts_or_is_wide()
    ensures { (n s : ℕ) (list : List ConstraintOf) (decisions : List DecisionOf) → All (IsWellMadeFor n) list → IsReducedWithin n s list decisions
        → (place : ℕ) (c : ConstraintOf) (d : DecisionOf) → IsAt list decisions place c d → is_kept d ≡ false
        → Implies n (those is_kept list decisions) c
        ⊎ (HasNoMember n (KeepsAll (before is_consistent place list decisions ++ c ∷ [])) ⊎ IsWideList n s (before is_consistent place list decisions ++ c ∷ [])) }
{}

/// A list of candidates has one sift and one reduction within a limit at most.
pub fn reduction_within_is_determined()
    ensures sift { (n s : ℕ) (list : List ConstraintOf) (a b : Sifting) → IsSiftWithin n s list a → IsSiftWithin n s list b → a ≡ b }
    ensures decisions { (n s : ℕ) (list : List ConstraintOf) (a b : List DecisionOf) → IsReducedWithin n s list a → IsReducedWithin n s list b → a ≡ b }
    ensures reduction { (n s : ℕ) (list : List ConstraintOf) (a b : Reduction) → IsReductionWithin n s list a → IsReductionWithin n s list b → a ≡ b }
{}

/// Where the sift or the reduction isn't refused for its states, that within the limit is the same.
pub fn within_agrees()
    ensures sift { (n s : ℕ) (list : List ConstraintOf) (sifting : Sifting) → IsSift n s list sifting → IsSiftWithin n s list sifting }
    ensures reduction { (n s : ℕ) (list : List ConstraintOf) (reduction : Reduction) → All (IsWellMadeFor n) list → IsReduction n s list reduction
        → IsReductionWithin n s list reduction }
{}
