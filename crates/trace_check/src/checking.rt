ghost use Rattle.std.specs.Prelude.{◌≡◌, ◌<◌, All, length, IfOk, IfErr};
ghost use Rattle.event_log.specs.Logs.{events_of, named};
ghost use Rattle.template_core.specs.Constraints.{IsWellMadeFor};
ghost use Rattle.trace_check.specs.Checking.{checked};

use crate::CheckReport;
use crate::index::{numbers_of, places_of};
use crate::rows::rows_of;
use decl_base::Refusal;
use event_log::{Alphabet, Log};
use std::alloc::Global;
use template_core::Constraint;

/// How the traces of a log keep each constraint of a list. Activities are matched by name, so a name that the log hasn't is no event of it.
/// Refused only where memory is out.
pub fn check(
    alloc: Global,
    names: &Alphabet,
    list: &[Constraint],
    log_names: &Alphabet,
    log: &Log,
) -> Result<CheckReport, Refusal>
    requires made { All (IsWellMadeFor (length names.now.names)) list.now }
    requires inside { All (λ id. id < length log_names.now.names) (events_of log.now.traces) }
    ensures ok { IfOk result (λ report. report ≡ checked names.now.names list.now (named log_names.now.names log.now.traces)) }
    ensures err { IfErr result (λ e. e ≡ Refusal.Memory) }
{
    let numbered = log.ranked(&numbers_of(alloc, names, log_names)?)?;
    let index = places_of(alloc, names.len(), &numbered)?;
    names.names_differ();
    let rows = rows_of(alloc, list, &numbered, &index)?;
    Ok(CheckReport { rows })
}
