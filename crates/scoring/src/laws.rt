ghost use Rattle.std.specs.Prelude.{◌≡◌, ◌↔◌, ◌<◌, ℕ, List, true, nat_eq, Contains};
ghost use Rattle.std.specs.List.Sorted.{IsStrictlySortedBy};
ghost use Rattle.decl_base.specs.declared.threshold.Thresholds.{Thresholds as ThresholdsOf};
ghost use Rattle.template_core.specs.Repertoire.{activated};
ghost use Rattle.template_core.specs.Repertoires.{is_candidate};
ghost use Rattle.template_core.specs.declared.constraint.Constraint.{Constraint as ConstraintOf};
ghost use Rattle.template_core.specs.declared.repertoire.Repertoire.{Repertoire as RepertoireOf};
ghost use Rattle.scoring.specs.Candidates.{mined_kinds, constraints_over, IsConstraintOver, candidates_of, IsCandidate, EachOccurs};
ghost use Rattle.scoring.specs.Priority.{constraint_cmp, priority_cmp};
ghost use Rattle.scoring.specs.declared.scored.Scored.{Scored as ScoredOf};

/// The list of a repertoire's mined constraints over n ranks has each of them and no other.
pub fn constraints_over_ranks()
    ensures { (repertoire : RepertoireOf) (n : ℕ) (c : ConstraintOf)
        → Contains (constraints_over (mined_kinds repertoire) n) c ↔ IsConstraintOver n c × (is_candidate repertoire c.kind ≡ true) }
{}

/// It ascends, so it has each of them once.
pub fn constraints_ascend()
    ensures { (repertoire : RepertoireOf) (n : ℕ) → IsStrictlySortedBy constraint_cmp (constraints_over (mined_kinds repertoire) n) }
{}

/// The candidates of a log are those that the definition tells, and no other.
pub fn candidates_of_log()
    ensures { (log : List (List ℕ)) (n : ℕ) (repertoire : RepertoireOf) (thresholds : ThresholdsOf) (s : ScoredOf)
        → Contains (candidates_of log n repertoire thresholds) s ↔ IsCandidate log n repertoire thresholds s }
{}

/// They ascend by priority, so each stands once.
pub fn candidates_ascend()
    ensures { (log : List (List ℕ)) (n : ℕ) (repertoire : RepertoireOf) (thresholds : ThresholdsOf) → EachOccurs n log
        → IsStrictlySortedBy priority_cmp (candidates_of log n repertoire thresholds) }
{}

/// Each constraint over the activities of a log is activated somewhere, so no score divides by 0.
pub fn constraints_activated()
    ensures { (log : List (List ℕ)) (n : ℕ) (c : ConstraintOf) → EachOccurs n log → IsConstraintOver n c
        → 0 < activated nat_eq c.kind c.first c.second log }
{}
