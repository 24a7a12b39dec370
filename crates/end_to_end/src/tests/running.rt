//! Logs of running cases that are watched by a model, line by line. Each text was worked out from the definitions.
use super::commands::RESPONSE;
use super::{CALM, Outside, repeated, run_check, run_on};
use decl_base::{Name, Status};
use decl_outside::MemInputs;
use std::test::Fail;

const RESPONSE_ONCE: &[u8] =
    b"{\"constraints\":[{\"template\":\"Response\",\"parameters\":[[\"a\"],[\"b\"]]},{\"template\":\"AtMostOne\",\"parameters\":[[\"a\"]]}]}";

const NEVER_BOTH: &[u8] =
    b"{\"constraints\":[{\"template\":\"NotCoExistence\",\"parameters\":[[\"a\"],[\"b\"]]},{\"template\":\"Participation\",\"parameters\":[[\"b\"]]}]}";

const NO_CONSTRAINTS: &[u8] = b"{\"constraints\":[]}";

/// Lines that interleave, a model that no continuation keeps though one keeps each of its constraints, a model without
/// constraints, a name that the model doesn't have, and one with a tab.
#[test]
fn cases_are_watched(rt: HostRuntime) -> Result<(), Fail> {
    let cases = [
        (
            RESPONSE_ONCE,
            "1\ta\n2\tb\n1\ta\n1\tb\n",
            "1 \"1\" b bk\n2 \"2\" k kk\n3 \"1\" B bB\n4 \"1\" B kB\n",
        ),
        (NEVER_BOTH, "1\ta\n", "1 \"1\" B kb\n"),
        (NO_CONSTRAINTS, "1\ta\n", "1 \"1\" K -\n"),
        (
            RESPONSE,
            "\"\tz\n\tb\n\ta\tb\n\ta",
            "1 \"\\\"\" k k\n2 \"\" k k\n3 \"\" k k\n4 \"\" b b\n",
        ),
        (RESPONSE, "", ""),
    ];
    for (model, log, want) in cases {
        let ran = run_check(rt.alloc(), "monitor m", model, log.as_bytes())?;
        assert_eq!(rt; ran.status, Status::Done);
        assert_eq!(rt; ran.out.bytes(), want.as_bytes());
        assert!(rt; ran.err.bytes().is_empty());
    }
    Ok(())
}

/// Words, a model and a log, how the run ends, and what stands on the two sinks.
const REFUSED: &[(&str, &[u8], &str, Status, &str, &str)] = &[
    (
        "monitor m",
        RESPONSE_ONCE,
        "1\ta\nx\n",
        Status::BadLog,
        "1 \"1\" b bk\n",
        "minerful: line 2 has no tab\n",
    ),
    (
        "monitor m --max-states 1",
        RESPONSE,
        "x\n",
        Status::Limit,
        "",
        "minerful: too many states, phase 5, constraints 1\n",
    ),
    (
        "monitor -",
        RESPONSE,
        "x\n",
        Status::Usage,
        "",
        "minerful: usage, place 17\n",
    ),
];

/// What the lines before the first at fault come to stays, and a model is refused before any line is read.
#[test]
fn running_cases_that_are_refused(rt: HostRuntime) -> Result<(), Fail> {
    for (words, model, log, status, out, err) in REFUSED {
        let ran = run_check(rt.alloc(), words, model, log.as_bytes())?;
        assert_eq!(rt; ran.status, *status);
        assert_eq!(rt; ran.out.bytes(), out.as_bytes());
        assert_eq!(rt; ran.err.bytes(), err.as_bytes());
    }
    Ok(())
}

/// A model of so many constraints is refused before any line is read.
#[test]
fn too_many_constraints_to_watch(rt: HostRuntime) -> Result<(), Fail> {
    let constraint = "{\"template\":\"Init\",\"parameters\":[[\"a\"]]}";
    let piece = format!(in rt.alloc(); "{constraint},")?;
    let end = format!(in rt.alloc(); "{constraint}]}}")?;
    let many = repeated(
        rt.alloc(),
        b"{\"constraints\":[",
        piece.as_bytes(),
        1000,
        end.as_bytes(),
    )?;
    let ran = run_check(rt.alloc(), "monitor m", &many, b"x\n")?;
    assert_eq!(rt; ran.status, Status::Limit);
    assert!(rt; ran.out.bytes().is_empty());
    assert_eq!(rt;
        ran.err.bytes(),
        b"minerful: 1001 constraints are too many\n".as_slice()
    );
    Ok(())
}

/// Two lines of four bytes each.
const TWO_LINES: &[u8] = b"1\ta\n2\tb\n";

const FIRST: &str = "1 \"1\" b b\n";

const BOTH: &str = "1 \"1\" b b\n2 \"2\" k k\n";

/// The calls of the inputs until the log is open: one for each that is opened, one for each of the 83 bytes of the model,
/// and one that finds its end.
const BEFORE_LOG: u64 = 86;

/// Each call of the inputs fails in its turn, where a read gives one byte: what stands then are the texts of the lines that
/// a line feed ended before.
#[test]
fn a_read_fails_between_lines(rt: HostRuntime) -> Result<(), Fail> {
    for failing in 1..=BEFORE_LOG + 9 {
        let mut inputs = MemInputs::new(rt.alloc(), 1, vec![in rt.alloc(); failing]?);
        inputs.put(Name::of(rt.alloc(), "m")?, RESPONSE.to_vec(rt.alloc())?)?;
        inputs.put(Name::of(rt.alloc(), "-")?, TWO_LINES.to_vec(rt.alloc())?)?;
        let ran = run_on(rt.alloc(), "monitor m", &mut inputs, CALM)?;
        let want = if failing <= BEFORE_LOG + 4 {
            ""
        } else if failing <= BEFORE_LOG + 8 {
            FIRST
        } else {
            BOTH
        };
        assert_eq!(rt; ran.status, Status::ReadFault, "call {failing}");
        assert_eq!(rt; ran.out.bytes(), want.as_bytes(), "call {failing}");
        assert_eq!(rt; ran.err.bytes(), b"minerful: read fault\n".as_slice());
    }
    Ok(())
}

/// A text is written before more is read: the second write fails, and the first text stands.
#[test]
fn a_write_fails_between_lines(rt: HostRuntime) -> Result<(), Fail> {
    let mut inputs = MemInputs::new(rt.alloc(), 1, Vec::new(rt.alloc()));
    inputs.put(Name::of(rt.alloc(), "m")?, RESPONSE.to_vec(rt.alloc())?)?;
    inputs.put(Name::of(rt.alloc(), "-")?, TWO_LINES.to_vec(rt.alloc())?)?;
    let outside = Outside {
        writes: &[2],
        ..CALM
    };
    let ran = run_on(rt.alloc(), "monitor m", &mut inputs, outside)?;
    assert_eq!(rt; ran.status, Status::WriteFault);
    assert_eq!(rt; ran.out.bytes(), FIRST.as_bytes());
    assert_eq!(rt; ran.err.bytes(), b"minerful: write fault\n".as_slice());
    Ok(())
}
