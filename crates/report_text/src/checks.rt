ghost use Rattle.std.specs.Prelude.{◌≡◌, ◌++◌, List, ℕ, map, string_bytes, length, All, IfOk, IfErr, OnOk};
ghost use Rattle.template_core.specs.Constraints.{IsWellMadeFor};
ghost use Rattle.report_text.specs.Fields.{quoted};
ghost use Rattle.report_text.specs.CheckTable.{broken_columns, check_line, check_table_text};

use crate::fields::{put_column, put_columns, put_constraint, quote_all};
use decl_base::Refusal;
use event_log::Alphabet;
use std::alloc::{AllocError, Global};
use template_core::Constraint;
use trace_check::{Broken, CheckReport, Checked};

/// The width of a number's column.
const WIDTH: usize = 10;

const HEADING: &str = " activated  fulfilled       kept      trace      place constraint\n";

/// The table of a check: a line for each constraint of the list with its row of the report. `names` has the name of
/// each number of the constraints.
pub fn check_table(
    alloc: Global,
    names: &Alphabet,
    list: &[Constraint],
    report: &CheckReport,
) -> Result<Vec<u8>, Refusal>
    requires made { All (IsWellMadeFor (length names.now.names)) list.now }
    requires rows { length report.now ≡ length list.now }
    ensures ok { IfOk result (λ text. text.items ≡ check_table_text names.now.names list.now report.now) }
    ensures err { IfErr result (λ e. e ≡ Refusal.Memory) }
{
    let rows = report.rows();
    let texts = quote_all(alloc, names)?;
    let mut out = Vec::new(alloc);
    out.extend_from_slice(HEADING.as_bytes())?;
    for (place, constraint) in list.iter().enumerate() {
        put_checked(&mut out, &texts, constraint, &rows[place])?;
    }
    Ok(out)
}

/// The line of a constraint.
fn put_checked(
    out: &mut Vec<u8>,
    texts: &[String],
    constraint: &Constraint,
    row: &Checked,
) -> Result<(), AllocError>
    requires { IsWellMadeFor (length texts.now) constraint.now }
    ensures { OnOk result ((names : List (List ℕ)) → map string_bytes texts.now ≡ map quoted names
        → out.new.items ≡ out.old.items ++ check_line names constraint.now row.now) }
{
    put_columns(out, WIDTH, &[row.activated, row.fulfilled, row.kept])?;
    put_broken(out, row.broken)?;
    put_constraint(out, texts, constraint)?;
    out.push(b'\n')?;
    Ok(())
}

/// The first broken trace and its first broken place.
fn put_broken(out: &mut Vec<u8>, broken: Option<Broken>) -> Result<(), AllocError>
    ensures { OnOk result (out.new.items ≡ out.old.items ++ broken_columns broken) }
{
    match broken {
        Some(broken) => put_columns(out, WIDTH, &[broken.trace, broken.place]),
        None => {
            put_column(out, WIDTH, b"-")?;
            put_column(out, WIDTH, b"-")
        }
    }
}
