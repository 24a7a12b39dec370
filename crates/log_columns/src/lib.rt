//! Which columns of a CSV log are read, and how the values of its order column compare.
#![tactic(auto)]

use decl_base::Name;

/// How the values of the order column compare.
#[derive(Clone, Copy, Debug, PartialEq, Eq)]
pub enum OrderAs {
    /// By their bytes.
    Text,
    /// As whole numbers.
    Number,
}

/// The names of the columns that a CSV log is read by.
#[derive(Debug, Drop)]
pub struct Columns {
    pub case: Name,
    pub activity: Name,
    /// Without one the events of a case stand in the order of their records.
    pub order: Option<Name>,
    pub order_as: OrderAs,
}
