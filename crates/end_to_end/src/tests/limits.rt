//! Logs and models that just meet a limit, and those that are beyond it. What stands on the two sinks was worked out by
//! hand.
use super::{CALM, Outside, repeated, run_check, run_with};
use decl_base::Status;
use std::alloc::Global;
use std::test::Fail;

/// Many bytes a call.
const FAST: Outside<'static> = Outside {
    piece: 4096,
    ..CALM
};

/// So many different characters, from U+4E00 on.
fn characters(alloc: Global, count: u32) -> Result<String, Fail> {
    let mut text = String::new(alloc);
    for code in (0x4E00..0x9FFF).take(count as usize) {
        if let Some(character) = char::from_u32(code) {
            text.push(character)?;
        }
    }
    Ok(text)
}

const NO_NAMES: &str =
    "{\"constraints\":[],\"dropped\":[],\"events\":0,\"example\":[],\"tasks\":[],\"traces\":1048575}\n";

const LONG: &str =
    "{\"constraints\":[{\"confidence\":[1,1],\"interest\":[1,1],\"parameters\":[[\"a\"]],\"support\":[1,1],\"template\":\"Init\",\"witness\":[]}],\"dropped\":[{\"confidence\":[1,1],\"interest\":[1,1],\"parameters\":[[\"a\"]],\"support\":[1,1],\"template\":\"End\",\"why\":\"first-pass\"},{\"by\":{\"parameters\":[[\"a\"]],\"template\":\"Init\"},\"confidence\":[1,1],\"interest\":[1,1],\"parameters\":[[\"a\"]],\"support\":[1,1],\"template\":\"Participation\",\"why\":\"weaker\"}],\"events\":1048576,\"example\":[\"a\"],\"tasks\":[\"a\"],\"traces\":1}\n";

/// Logs that are one piece over and over, with an end.
#[test]
fn logs_at_the_limits(rt: HostRuntime) -> Result<(), Fail> {
    let cases: [(&str, u32, &str, Status, &str, &str); 4] = [
        ("\n", 1_048_575, "", Status::Done, NO_NAMES, ""),
        (
            "\n",
            1_048_576,
            "",
            Status::Limit,
            "",
            "minerful: more than 1048575 traces\n",
        ),
        ("a", 1_048_576, "\n", Status::Done, LONG, ""),
        (
            "a",
            1_048_577,
            "\n",
            Status::Limit,
            "",
            "minerful: line 1 is too long\n",
        ),
    ];
    for (piece, times, end, status, out, line) in cases {
        let log = repeated(rt.alloc(), b"", piece.as_bytes(), times, end.as_bytes())?;
        let ran = run_with(rt.alloc(), "mine", &log, FAST)?;
        assert_eq!(rt; ran.status, status);
        assert_eq!(rt; ran.out.bytes(), out.as_bytes());
        assert_eq!(rt; ran.err.bytes(), line.as_bytes());
    }
    Ok(())
}

/// One line of so many different characters, in order, so many times over.
#[test]
fn names_at_the_limits(rt: HostRuntime) -> Result<(), Fail> {
    let cases = [
        (1000, 1, "minerful: 5998000 constraints are too many\n"),
        (1001, 1, "minerful: more than 1000 activities\n"),
        (1000, 50, "minerful: 8494502 constraints are too many\n"),
    ];
    for (count, times, line) in cases {
        let names = characters(rt.alloc(), count)?;
        let log = repeated(rt.alloc(), b"", names.as_bytes(), times, b"\n")?;
        let ran = run_with(rt.alloc(), "mine", &log, FAST)?;
        assert_eq!(rt; ran.status, Status::Limit);
        assert!(rt; ran.out.bytes().is_empty());
        assert_eq!(rt; ran.err.bytes(), line.as_bytes());
    }
    Ok(())
}

const TWICE: &str =
    "{\"constraints\":[{\"template\":\"Participation\",\"parameters\":[[\"a\"]]},{\"template\":\"Participation\",\"parameters\":[[\"a\"]]}]";

/// Models with so many spaces before the last brace: one that names a constraint twice, one of as many bytes as are
/// read, and one of a byte more.
#[test]
fn models_at_the_limits(rt: HostRuntime) -> Result<(), Fail> {
    let cases: [(&str, u32, Status, &str, &str); 3] = [
        (
            TWICE,
            0,
            Status::Done,
            " activated  fulfilled       kept      trace      place constraint\n         1          1          1          -          - Participation(\"a\")\n         1          1          1          -          - Participation(\"a\")\n",
            "",
        ),
        (
            "{\"constraints\":[]",
            16_777_198,
            Status::Done,
            " activated  fulfilled       kept      trace      place constraint\n",
            "",
        ),
        (
            "{\"constraints\":[]",
            16_777_199,
            Status::Limit,
            "",
            "minerful: more than 16777216 bytes\n",
        ),
    ];
    for (before, spaces, status, out, line) in cases {
        let model = repeated(rt.alloc(), before.as_bytes(), b" ", spaces, b"}")?;
        let ran = run_check(rt.alloc(), "check m", &model, b"a\n")?;
        assert_eq!(rt; ran.status, status);
        assert_eq!(rt; ran.out.bytes(), out.as_bytes());
        assert_eq!(rt; ran.err.bytes(), line.as_bytes());
    }
    Ok(())
}
