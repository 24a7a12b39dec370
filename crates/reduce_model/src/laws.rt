ghost use Rattle.std.specs.Prelude.{◌≡◌, ◌↔◌, ◌⊎◌, ℕ, suc, ◌++◌, ◌∷◌, [], List, All, Some, take, drop, slice_get};
ghost use Rattle.decl_base.specs.declared.refusal.Refusal.TheVariants.{States};
ghost use Rattle.dfa_core.specs.Languages.{HasNoMember};
ghost use Rattle.dfa_core.specs.Traces.{IsTrace};
ghost use Rattle.template_core.specs.Constraints.{IsWellMadeFor};
ghost use Rattle.template_core.specs.declared.constraint.Constraint.{Constraint as ConstraintOf};
ghost use Rattle.reduce_model.specs.Deciding.{IsAt, before, is_consistent, is_kept, those};
ghost use Rattle.reduce_model.specs.Keeping.{IsKeepable, KeepsAll};
ghost use Rattle.reduce_model.specs.Reduction.{Breaks, Implies, IsReduced, IsReduction, Reduction, RefusesReduction};
ghost use Rattle.reduce_model.specs.declared.decision.Decision.{Decision as DecisionOf};
ghost use Rattle.reduce_model.specs.declared.decision.Decision.TheVariants.{Kept};

/// The reduced model keeps exactly the traces of the conflict-free model.
pub fn model_keeps_the_traces()
    ensures { (n : ℕ) (list : List ConstraintOf) (decisions : List DecisionOf) → All (IsWellMadeFor n) list → IsReduced n list decisions
        → (w : List ℕ) → IsTrace n w
        → KeepsAll (those is_kept list decisions) w ↔ KeepsAll (those is_consistent list decisions) w }
{}

/// Some trace keeps it.
pub fn model_is_keepable()
    ensures { (n s : ℕ) (list : List ConstraintOf) (reduction : Reduction) → IsReduction n s list reduction
        → IsKeepable n (those is_kept list reduction.decisions) }
{}

/// Beside each constraint of the model stands a trace that keeps all the others and breaks it.
pub fn witnesses_break_one_each()
    ensures { (n s : ℕ) (list : List ConstraintOf) (reduction : Reduction) → IsReduction n s list reduction
        → (place : ℕ) (c : ConstraintOf) → slice_get (those is_kept list reduction.decisions) place ≡ Some c
        → (w : List ℕ) × (slice_get reduction.witnesses place ≡ Some w) × IsTrace n w
        × Breaks (take place (those is_kept list reduction.decisions) ++ drop (suc place) (those is_kept list reduction.decisions)) c w }
{}

/// Each candidate that is left out conflicts with the constraints of the conflict-free model before it, or the reduced model implies it.
pub fn left_out_conflicts_or_is_implied()
    ensures { (n : ℕ) (list : List ConstraintOf) (decisions : List DecisionOf) → All (IsWellMadeFor n) list → IsReduced n list decisions
        → (place : ℕ) (c : ConstraintOf) (d : DecisionOf) → IsAt list decisions place c d → (d ≡ Kept → ⊥)
        → HasNoMember n (KeepsAll (before is_consistent place list decisions ++ c ∷ [])) ⊎ Implies n (those is_kept list decisions) c }
{}

/// A list of candidates can't be without the decisions of its reduction, and they are one list.
pub fn decisions_are_determined()
    ensures some { (n : ℕ) (list : List ConstraintOf) → ((decisions : List DecisionOf) → IsReduced n list decisions → ⊥) → ⊥ }
    ensures one { (n : ℕ) (list : List ConstraintOf) (a b : List DecisionOf) → IsReduced n list a → IsReduced n list b → a ≡ b }
{}

/// A list of candidates has one reduction at most, and none where it is refused for its states. Two such refusals are the same.
pub fn reduction_is_determined()
    ensures one { (n s : ℕ) (list : List ConstraintOf) (a b : Reduction) → IsReduction n s list a → IsReduction n s list b → a ≡ b }
    ensures not_both { (n s : ℕ) (list : List ConstraintOf) (a : Reduction) (phase built : ℕ) → IsReduction n s list a
        → RefusesReduction n s list (States phase built) → ⊥ }
    ensures one_refusal { (n s : ℕ) (list : List ConstraintOf) (p q a b : ℕ) → RefusesReduction n s list (States p a)
        → RefusesReduction n s list (States q b) → (p ≡ q) × (a ≡ b) }
{}
