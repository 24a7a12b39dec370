ghost use Rattle.template_core.specs.Constraints.{IsWellMade};
ghost use Rattle.chain_cert.specs.Tables.{IsTableOf};

use template_core::{Constraint, Table};
use template_set::table_of;

/// The table of a constraint's template.
pub(crate) fn table_for(constraint: &Constraint) -> Table
    requires { IsWellMade constraint.now.kind constraint.now.first constraint.now.second }
    ensures { IsTableOf constraint.now.kind result }
{
    table_of(constraint.kind)
}
