ghost use Rattle.std.specs.Prelude.{◌≡◌, ◌≤◌, ◌+◌, ◌++◌, length, codes, decimal};
ghost use Rattle.decl_base.specs.Refusal.{line_of};

use crate::Refusal;
use arrayvec::ArrayString;
use itoa::Buffer;

/// The bytes of the longest line.
const LINE_SIZE: usize = 96;

/// A line that tells of a refusal, with its line feed.
pub type RefusalLine = ArrayString<LINE_SIZE>;

/// The line that tells of a refusal, built without taking memory.
pub fn line_of(refusal: &Refusal) -> RefusalLine
    ensures { result.bytes ≡ line_of refusal.now }
{
    match *refusal {
        Refusal::Usage { at } => numbered("usage, place ", u64::from(at), "\n"),
        Refusal::NotUtf8 { line } => numbered("line ", line, " is not UTF-8\n"),
        Refusal::Header { which } => numbered("no column, place ", u64::from(which), "\n"),
        Refusal::ShortRow { row } => numbered("record ", row, " is too short\n"),
        Refusal::RowText { row } => numbered("record ", row, " is not UTF-8\n"),
        Refusal::RowOrder { row } => numbered("record ", row, " has no order number\n"),
        Refusal::NoTab { line } => numbered("line ", line, " has no tab\n"),
        Refusal::NotJson => plain("the model is not JSON\n"),
        Refusal::ModelShape { at } => numbered("model shape, constraint ", u64::from(at), "\n"),
        Refusal::UnknownTemplate { at } => {
            numbered("unknown template, constraint ", u64::from(at), "\n")
        }
        Refusal::Parameters { at } => {
            numbered("wrong parameters, constraint ", u64::from(at), "\n")
        }
        Refusal::SameParameter { at } => {
            numbered("same parameter twice, constraint ", u64::from(at), "\n")
        }
        Refusal::CertShape { part } => numbered("certificate shape, part ", u64::from(part), "\n"),
        Refusal::LineLong { line } => numbered("line ", line, " is too long\n"),
        Refusal::Bytes { limit } => numbered("more than ", limit, " bytes\n"),
        Refusal::Traces { limit } => numbered("more than ", limit, " traces\n"),
        Refusal::Events { limit } => numbered("more than ", limit, " events\n"),
        Refusal::Activities { limit } => numbered("more than ", limit, " activities\n"),
        Refusal::Candidates { count } => numbered("", count, " constraints are too many\n"),
        Refusal::States { phase, built } => states_line(phase, built),
        Refusal::ReadFault => plain("read fault\n"),
        Refusal::WriteFault => plain("write fault\n"),
        Refusal::Memory => plain("out of memory\n"),
    }
}

/// The text behind the program's name.
fn plain(text: &str) -> RefusalLine
    requires { length text.now ≤ 86 }
    ensures { result.bytes ≡ codes "minerful: " ++ text.now }
{
    let mut line = RefusalLine::new();
    line.push_str("minerful: ");
    line.push_str(text);
    line
}

fn numbered(before: &str, number: u64, after: &str) -> RefusalLine
    requires { length before.now + length after.now ≤ 66 }
    ensures text { result.bytes ≡ codes "minerful: " ++ before.now ++ decimal number ++ after.now }
    ensures len { length result.bytes ≤ length before.now + length after.now + 30 }
{
    let mut line = plain(before);
    line.push_str(Buffer::new().format(number));
    line.push_str(after);
    line
}

fn states_line(phase: u8, built: u32) -> RefusalLine
    ensures { result.bytes ≡ line_of (Refusal.States phase built) }
{
    let mut line = numbered(
        "too many states, phase ",
        u64::from(phase),
        ", constraints ",
    );
    line.push_str(Buffer::new().format(built));
    line.push_str("\n");
    line
}
