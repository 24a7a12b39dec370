//! CSV logs: each record behind the header is an event of a case.
#![tactic(auto)]

mod collect;
mod group;
mod kept;
mod keys;
mod laws;
mod number;
mod places;
mod read;
mod records;
mod row;

pub use laws::{equal_values_keep_their_order, values_ascend};
pub use log_columns::{Columns, OrderAs};
pub use read::read_csv;
