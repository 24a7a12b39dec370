//! Laws of the definitions on CSV logs.

ghost use Rattle.std.specs.Prelude.{List};
ghost use Rattle.std.specs.List.Sorted.{IsSortedBy, IsStableBy};
ghost use Rattle.log_columns.specs.declared.OrderAs.{OrderAs};
ghost use Rattle.csv_log.specs.CsvLog.{Event, is_before};
ghost use Rattle.csv_log.specs.Sorting.{stably_sorted};

/// Events in the order of their values ascend by them.
pub fn values_ascend()
    ensures { (order_as : OrderAs) (events : List Event) → IsSortedBy (is_before order_as) (stably_sorted (is_before order_as) events) }
{}

/// Events in the order of their values are those that there were, and equal values keep the order of their records.
pub fn equal_values_keep_their_order()
    ensures { (order_as : OrderAs) (events : List Event) → IsStableBy (is_before order_as) events (stably_sorted (is_before order_as) events) }
{}
