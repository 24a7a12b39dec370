//! Laws of the definitions on logs.

ghost use Rattle.std.specs.Prelude.{◌≡◌, List, ℕ};
ghost use Rattle.std.specs.Cmp.Lexicographic.{slice_cmp};
ghost use Rattle.std.specs.List.Sorted.{IsStrictlySortedBy};
ghost use Rattle.std.specs.Ordering.{nat_cmp};
ghost use Rattle.event_log.specs.Logs.{sorted_names, events_of, has_name};

/// The different names of a log ascend in the order of their bytes, so each stands there once.
pub fn sorted_names_ascend()
    ensures { (log : List (List (List ℕ))) → IsStrictlySortedBy (slice_cmp nat_cmp) (sorted_names log) }
{}

/// They are the names of its events and no others.
pub fn sorted_names_are_those_of_the_log()
    ensures { (log : List (List (List ℕ))) (name : List ℕ) → has_name (sorted_names log) name ≡ has_name (events_of log) name }
{}
