//! The repertoire and the counters on small traces of a = 0, b = 1 and c = 2, against a table worked out by hand.

ghost use Rattle.std.specs.Prelude.{◌≡◌, ℕ, List, [], ◌∷◌, nat_eq};
ghost use Rattle.template_core.specs.Counts.{unary_counts, pair_counts};
ghost use Rattle.template_core.specs.Repertoire.{activated_places, fulfilled_places};
ghost use Rattle.template_core.specs.declared.kind.Kind.{Kind as KindOf};
ghost use Rattle.template_core.specs.declared.kind.Kind.TheVariants.{Init, End, Participation, AtMostOne, ChainSuccession, AlternateSuccession, Succession, CoExistence, ChainResponse, AlternateResponse, Response, ChainPrecedence, AlternatePrecedence, Precedence, RespondedExistence, NotCoExistence, NotSuccession, NotChainSuccession, Exactly, AtLeast, AtMost, NotRespondedExistence, NotResponse, NotPrecedence, NotChainResponse, NotChainPrecedence};

#[tactic(auto, unfolding(crate::specs::Events::count_places))]
fn rows_on_aacb()
    ensures activated { let at : KindOf → List ℕ = λ kind. activated_places nat_eq kind 0 1 (0 ∷ 0 ∷ 2 ∷ 1 ∷ []) in
        (at Init ≡ 4 ∷ []) × (at End ≡ 4 ∷ []) × (at Participation ≡ 4 ∷ []) × (at AtMostOne ≡ 4 ∷ [])
        × (at ChainSuccession ≡ 0 ∷ 1 ∷ 3 ∷ []) × (at AlternateSuccession ≡ 0 ∷ 1 ∷ 3 ∷ []) × (at Succession ≡ 0 ∷ 1 ∷ 3 ∷ []) × (at CoExistence ≡ 0 ∷ 1 ∷ 3 ∷ [])
        × (at ChainResponse ≡ 0 ∷ 1 ∷ []) × (at AlternateResponse ≡ 0 ∷ 1 ∷ []) × (at Response ≡ 0 ∷ 1 ∷ []) × (at RespondedExistence ≡ 0 ∷ 1 ∷ [])
        × (at ChainPrecedence ≡ 3 ∷ []) × (at AlternatePrecedence ≡ 3 ∷ []) × (at Precedence ≡ 3 ∷ []) × (at NotCoExistence ≡ 0 ∷ 1 ∷ 3 ∷ [])
        × (at NotSuccession ≡ 0 ∷ 1 ∷ 3 ∷ []) × (at NotChainSuccession ≡ 0 ∷ 1 ∷ 3 ∷ [])
        × (at (Exactly 2) ≡ 4 ∷ []) × (at (AtLeast 3) ≡ 4 ∷ []) × (at (AtMost 1) ≡ 4 ∷ []) × (at NotRespondedExistence ≡ 0 ∷ 1 ∷ [])
        × (at NotResponse ≡ 0 ∷ 1 ∷ []) × (at NotPrecedence ≡ 3 ∷ []) × (at NotChainResponse ≡ 0 ∷ 1 ∷ []) × (at NotChainPrecedence ≡ 3 ∷ []) }
    ensures existence { let at : KindOf → List ℕ = λ kind. fulfilled_places nat_eq kind 0 1 (0 ∷ 0 ∷ 2 ∷ 1 ∷ []) in
        (at Init ≡ 4 ∷ []) × (at End ≡ []) × (at Participation ≡ 4 ∷ []) × (at AtMostOne ≡ []) }
    ensures mutual { let at : KindOf → List ℕ = λ kind. fulfilled_places nat_eq kind 0 1 (0 ∷ 0 ∷ 2 ∷ 1 ∷ []) in
        (at ChainSuccession ≡ []) × (at AlternateSuccession ≡ 1 ∷ 3 ∷ []) × (at Succession ≡ 0 ∷ 1 ∷ 3 ∷ []) × (at CoExistence ≡ 0 ∷ 1 ∷ 3 ∷ []) }
    ensures response { let at : KindOf → List ℕ = λ kind. fulfilled_places nat_eq kind 0 1 (0 ∷ 0 ∷ 2 ∷ 1 ∷ []) in
        (at ChainResponse ≡ []) × (at AlternateResponse ≡ 1 ∷ []) × (at Response ≡ 0 ∷ 1 ∷ []) × (at RespondedExistence ≡ 0 ∷ 1 ∷ []) }
    ensures precedence { let at : KindOf → List ℕ = λ kind. fulfilled_places nat_eq kind 0 1 (0 ∷ 0 ∷ 2 ∷ 1 ∷ []) in
        (at ChainPrecedence ≡ []) × (at AlternatePrecedence ≡ 3 ∷ []) × (at Precedence ≡ 3 ∷ []) }
    ensures negative { let at : KindOf → List ℕ = λ kind. fulfilled_places nat_eq kind 0 1 (0 ∷ 0 ∷ 2 ∷ 1 ∷ []) in
        (at NotCoExistence ≡ []) × (at NotSuccession ≡ []) × (at NotChainSuccession ≡ 0 ∷ 1 ∷ 3 ∷ []) }
    ensures one_sided { let at : KindOf → List ℕ = λ kind. fulfilled_places nat_eq kind 0 1 (0 ∷ 0 ∷ 2 ∷ 1 ∷ []) in
        (at NotRespondedExistence ≡ []) × (at NotResponse ≡ []) × (at NotPrecedence ≡ []) × (at NotChainResponse ≡ 0 ∷ 1 ∷ []) × (at NotChainPrecedence ≡ 3 ∷ []) }
    ensures exactly { let at : KindOf → List ℕ = λ kind. fulfilled_places nat_eq kind 0 1 (0 ∷ 0 ∷ 2 ∷ 1 ∷ []) in
        (at (Exactly 1) ≡ []) × (at (Exactly 2) ≡ 4 ∷ []) × (at (Exactly 3) ≡ []) × (at (Exactly 9) ≡ []) }
    ensures at_least { let at : KindOf → List ℕ = λ kind. fulfilled_places nat_eq kind 0 1 (0 ∷ 0 ∷ 2 ∷ 1 ∷ []) in
        (at (AtLeast 1) ≡ 4 ∷ []) × (at (AtLeast 2) ≡ 4 ∷ []) × (at (AtLeast 3) ≡ []) × (at (AtLeast 9) ≡ []) }
    ensures at_most { let at : KindOf → List ℕ = λ kind. fulfilled_places nat_eq kind 0 1 (0 ∷ 0 ∷ 2 ∷ 1 ∷ []) in
        (at (AtMost 1) ≡ []) × (at (AtMost 2) ≡ 4 ∷ []) × (at (AtMost 3) ≡ 4 ∷ []) × (at (AtMost 9) ≡ 4 ∷ []) }
{}

#[tactic(auto, unfolding(crate::specs::Events::count_places))]
fn rows_on_babb()
    ensures existence { let at : KindOf → List ℕ = λ kind. fulfilled_places nat_eq kind 0 1 (1 ∷ 0 ∷ 1 ∷ 1 ∷ []) in
        (at Init ≡ []) × (at End ≡ []) × (at Participation ≡ 4 ∷ []) × (at AtMostOne ≡ 4 ∷ []) }
    ensures mutual { let at : KindOf → List ℕ = λ kind. fulfilled_places nat_eq kind 0 1 (1 ∷ 0 ∷ 1 ∷ 1 ∷ []) in
        (at ChainSuccession ≡ 1 ∷ 2 ∷ []) × (at AlternateSuccession ≡ 1 ∷ 2 ∷ []) × (at Succession ≡ 1 ∷ 2 ∷ 3 ∷ []) × (at CoExistence ≡ 0 ∷ 1 ∷ 2 ∷ 3 ∷ []) }
    ensures response { let at : KindOf → List ℕ = λ kind. fulfilled_places nat_eq kind 0 1 (1 ∷ 0 ∷ 1 ∷ 1 ∷ []) in
        (at ChainResponse ≡ 1 ∷ []) × (at AlternateResponse ≡ 1 ∷ []) × (at Response ≡ 1 ∷ []) × (at RespondedExistence ≡ 1 ∷ []) }
    ensures precedence { let at : KindOf → List ℕ = λ kind. fulfilled_places nat_eq kind 0 1 (1 ∷ 0 ∷ 1 ∷ 1 ∷ []) in
        (at ChainPrecedence ≡ 2 ∷ []) × (at AlternatePrecedence ≡ 2 ∷ []) × (at Precedence ≡ 2 ∷ 3 ∷ []) }
    ensures negative { let at : KindOf → List ℕ = λ kind. fulfilled_places nat_eq kind 0 1 (1 ∷ 0 ∷ 1 ∷ 1 ∷ []) in
        (at NotCoExistence ≡ []) × (at NotSuccession ≡ 0 ∷ []) × (at NotChainSuccession ≡ 0 ∷ 3 ∷ []) }
    ensures one_sided { let at : KindOf → List ℕ = λ kind. fulfilled_places nat_eq kind 0 1 (1 ∷ 0 ∷ 1 ∷ 1 ∷ []) in
        (at NotRespondedExistence ≡ []) × (at NotResponse ≡ []) × (at NotPrecedence ≡ 0 ∷ []) × (at NotChainResponse ≡ []) × (at NotChainPrecedence ≡ 0 ∷ 3 ∷ []) }
{}

#[tactic(auto, unfolding(crate::specs::Events::count_places))]
fn rows_on_ba()
    ensures existence { let at : KindOf → List ℕ = λ kind. fulfilled_places nat_eq kind 0 1 (1 ∷ 0 ∷ []) in
        (at Init ≡ []) × (at End ≡ 2 ∷ []) × (at Participation ≡ 2 ∷ []) × (at AtMostOne ≡ 2 ∷ []) }
    ensures mutual { let at : KindOf → List ℕ = λ kind. fulfilled_places nat_eq kind 0 1 (1 ∷ 0 ∷ []) in
        (at ChainSuccession ≡ []) × (at AlternateSuccession ≡ []) × (at Succession ≡ []) × (at CoExistence ≡ 0 ∷ 1 ∷ []) }
    ensures response { let at : KindOf → List ℕ = λ kind. fulfilled_places nat_eq kind 0 1 (1 ∷ 0 ∷ []) in
        (at ChainResponse ≡ []) × (at AlternateResponse ≡ []) × (at Response ≡ []) × (at RespondedExistence ≡ 1 ∷ []) }
    ensures precedence { let at : KindOf → List ℕ = λ kind. fulfilled_places nat_eq kind 0 1 (1 ∷ 0 ∷ []) in
        (at ChainPrecedence ≡ []) × (at AlternatePrecedence ≡ []) × (at Precedence ≡ []) }
    ensures negative { let at : KindOf → List ℕ = λ kind. fulfilled_places nat_eq kind 0 1 (1 ∷ 0 ∷ []) in
        (at NotCoExistence ≡ []) × (at NotSuccession ≡ 0 ∷ 1 ∷ []) × (at NotChainSuccession ≡ 0 ∷ 1 ∷ []) }
    ensures one_sided { let at : KindOf → List ℕ = λ kind. fulfilled_places nat_eq kind 0 1 (1 ∷ 0 ∷ []) in
        (at NotRespondedExistence ≡ []) × (at NotResponse ≡ 1 ∷ []) × (at NotPrecedence ≡ 0 ∷ []) × (at NotChainResponse ≡ 1 ∷ []) × (at NotChainPrecedence ≡ 0 ∷ []) }
{}

#[tactic(auto, unfolding(crate::specs::Events::count_places))]
fn rows_on_the_empty_trace()
    ensures activated { let at : KindOf → List ℕ = λ kind. activated_places nat_eq kind 0 1 [] in
        (at Init ≡ 0 ∷ []) × (at End ≡ 0 ∷ []) × (at Participation ≡ 0 ∷ []) × (at AtMostOne ≡ 0 ∷ []) × (at NotCoExistence ≡ []) × (at Response ≡ []) }
    ensures fulfilled { let at : KindOf → List ℕ = λ kind. fulfilled_places nat_eq kind 0 1 [] in
        (at Init ≡ []) × (at End ≡ []) × (at Participation ≡ []) × (at AtMostOne ≡ 0 ∷ []) × (at NotCoExistence ≡ []) × (at Response ≡ []) }
    ensures counted { let at : KindOf → List ℕ = λ kind. fulfilled_places nat_eq kind 0 1 [] in
        (at (Exactly 1) ≡ []) × (at (Exactly 9) ≡ []) × (at (AtLeast 1) ≡ []) × (at (AtLeast 9) ≡ []) × (at (AtMost 1) ≡ 0 ∷ []) × (at (AtMost 9) ≡ 0 ∷ []) }
{}

#[tactic(auto, unfolding(crate::specs::Events::count_places))]
fn rows_on_a()
    ensures activated { let at : KindOf → List ℕ = λ kind. activated_places nat_eq kind 0 1 (0 ∷ []) in
        (at Init ≡ 1 ∷ []) × (at End ≡ 1 ∷ []) × (at CoExistence ≡ 0 ∷ []) × (at RespondedExistence ≡ 0 ∷ []) × (at NotCoExistence ≡ 0 ∷ []) }
    ensures fulfilled { let at : KindOf → List ℕ = λ kind. fulfilled_places nat_eq kind 0 1 (0 ∷ []) in
        (at Init ≡ 1 ∷ []) × (at End ≡ 1 ∷ []) × (at CoExistence ≡ []) × (at RespondedExistence ≡ []) × (at NotCoExistence ≡ 0 ∷ []) }
{}

#[tactic(auto, unfolding(crate::specs::Events::count_places))]
fn counters_on_two_traces()
    ensures of_a { unary_counts 0 ((0 ∷ 0 ∷ 2 ∷ 1 ∷ []) ∷ (1 ∷ 0 ∷ 1 ∷ 1 ∷ []) ∷ [] ∷ []) ≡ record {
      occurrences = 3;
      traces = 2;
      repeated = 1;
      first = 1;
      last = 0;
      exact = 1 ∷ 1 ∷ 0 ∷ 0 ∷ 0 ∷ 0 ∷ 0 ∷ 0 ∷ 0 ∷ [];
    } }
    ensures of_a_and_b { pair_counts 0 1 ((0 ∷ 0 ∷ 2 ∷ 1 ∷ []) ∷ (0 ∷ 2 ∷ []) ∷ []) ≡ record {
      without = 1;
      no_later = 1;
      no_earlier = 3;
      next = 0;
      previous = 0;
      rep_later = 1;
      rep_earlier = 0;
      together = 1;
    } }
    ensures of_b_and_a { pair_counts 1 0 ((1 ∷ 0 ∷ 1 ∷ 1 ∷ []) ∷ []) ≡ record {
      without = 0;
      no_later = 2;
      no_earlier = 1;
      next = 1;
      previous = 1;
      rep_later = 0;
      rep_earlier = 1;
      together = 1;
    } }
{}

#[test]
fn rows_and_counters() {
    rows_on_aacb();
    rows_on_babb();
    rows_on_ba();
    rows_on_the_empty_trace();
    rows_on_a();
    counters_on_two_traces();
}
