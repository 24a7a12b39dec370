ghost use Rattle.std.specs.Prelude.{◌≡◌, ℕ, List, nat_eq};
ghost use Rattle.template_core.specs.Constraints.{IsWellMade};
ghost use Rattle.template_core.specs.Counts.{counts_of, AreCounts};
ghost use Rattle.template_core.specs.Repertoire.{activated};

use crate::{Activation, Counts, Group, Kind, group_of};

/// The activated places of the log that the counters are of, by the group of the template.
pub(crate) fn activations_of(kind: Kind, counts: &Counts) -> u64
    requires { AreCounts kind counts.now }
    ensures { (a b : ℕ) (log : List (List ℕ)) → IsWellMade kind a b → counts.now ≡ counts_of kind a b log
        → result ≡ activated nat_eq kind a b log }
{
    let first = counts.first.occurrences;
    let second = counts.second.occurrences;
    match group_of(kind) {
        Group::Existence => counts.traces,
        Group::Relation(Activation::First) => first,
        Group::Relation(Activation::Second) => second,
        Group::Mutual | Group::Negative => first + second,
    }
}
