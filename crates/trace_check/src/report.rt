ghost use Rattle.std.specs.Prelude.{◌≡◌};

use crate::Checked;
use std::marker::Model;

/// How the traces of a log keep the constraints of a list: a row for each constraint, in the order of the list.
#[derive(Debug, Drop)]
pub struct CheckReport {
    pub(crate) rows: Vec<Checked>,
}

impl Model for CheckReport {
    ghost use Rattle.std.specs.Prelude.{List};
    ghost use Rattle.trace_check.specs.declared.checked.Checked.{Checked as Row};

    ghost Value = { List Row };

    ghost view = { λ r. r.rows.items };
}

impl CheckReport {
    /// The rows, in the order of the constraints.
    pub fn rows(&self) -> &[Checked]
        ensures { result.now ≡ self.now }
    {
        &self.rows
    }
}
