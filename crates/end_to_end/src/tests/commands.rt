//! Logs that are checked against a model, models that are compared and analysed, and a log that is generated and mined.
use super::{CALM, run_check, run_with};
use decl_base::Status;
use std::test::Fail;

pub(crate) const RESPONSE: &[u8] =
    b"{\"constraints\":[{\"template\":\"Response\",\"parameters\":[[\"a\"],[\"b\"]],\"support\":0.98}]}";

const RESPONSE_OF_Z: &[u8] =
    b"{\"constraints\":[{\"template\":\"Response\",\"parameters\":[[\"z\"],[\"a\"]]}]}";

const INIT: &[u8] = b"{\"constraints\":[{\"template\":\"Init\",\"parameters\":[[\"a\"]]}]}";

const EXACTLY: &[u8] =
    b"{\"constraints\":[{\"template\":\"Exactly2\",\"parameters\":[[\"a\"]]}],\"version\":2}";

#[test]
fn checks_are_told(rt: HostRuntime) -> Result<(), Fail> {
    let cases = [
        (
            RESPONSE,
            "ab\na\n",
            Status::Differs,
            " activated  fulfilled       kept      trace      place constraint\n         2          1          1          2          0 Response(\"a\",\"b\")\n",
        ),
        (
            RESPONSE_OF_Z,
            "ab\n",
            Status::Done,
            " activated  fulfilled       kept      trace      place constraint\n         0          0          1          -          - Response(\"z\",\"a\")\n",
        ),
        (
            INIT,
            "\n",
            Status::Differs,
            " activated  fulfilled       kept      trace      place constraint\n         1          0          0          1          0 Init(\"a\")\n",
        ),
        (
            EXACTLY,
            "aa\n",
            Status::Done,
            " activated  fulfilled       kept      trace      place constraint\n         1          1          1          -          - Exactly2(\"a\")\n",
        ),
    ];
    for (model, log, status, want) in cases {
        let ran = run_check(rt.alloc(), "check m", model, log.as_bytes())?;
        assert_eq!(rt; ran.status, status);
        assert_eq!(rt; ran.out.bytes(), want.as_bytes());
        assert!(rt; ran.err.bytes().is_empty());
    }
    let ran = run_with(rt.alloc(), "regex Response ba", b"", CALM)?;
    assert_eq!(rt; ran.status, Status::Differs);
    assert_eq!(rt; ran.out.bytes(), b"no\n".as_slice());
    Ok(())
}

const END: &[u8] = b"{\"constraints\":[{\"template\":\"End\",\"parameters\":[[\"a\"]]}]}";

const CHAIN: &[u8] =
    b"{\"constraints\":[{\"template\":\"ChainResponse\",\"parameters\":[[\"a\"],[\"b\"]]}]}";

const ALTERNATE: &[u8] =
    b"{\"constraints\":[{\"template\":\"AlternateResponse\",\"parameters\":[[\"a\"],[\"b\"]]}]}";

/// The same traces keep it as keep the one above, since a name that no constraint has is like any other.
const NAMED: &[u8] =
    b"{\"tasks\":[\"z\",\"b\",\"a\"],\"constraints\":[{\"template\":\"AlternateResponse\",\"parameters\":[[\"a\"],[\"b\"]]}]}";

const WITH_MORE: &[u8] =
    b"{\"constraints\":[{\"template\":\"Init\",\"parameters\":[[\"a\"]]},{\"template\":\"NotCoExistence\",\"parameters\":[[\"a\"],[\"b\"]]},{\"template\":\"Participation\",\"parameters\":[[\"a\"]]}]}";

/// Words, the model that stands as the file `m` and the one on standard input, how the run ends and what it prints.
const COMPARED: &[(&str, &[u8], &[u8], Status, &str)] = &[
    (
        "compare m -",
        CHAIN,
        ALTERNATE,
        Status::Differs,
        "stronger\nonly first -\nonly second [\"a\",null,\"b\"]\n",
    ),
    (
        "compare m -",
        INIT,
        END,
        Status::Differs,
        "neither\nonly first [\"a\",null]\nonly second [null,\"a\"]\n",
    ),
    (
        "compare m -",
        NAMED,
        ALTERNATE,
        Status::Done,
        "equal\nonly first -\nonly second -\n",
    ),
    (
        "analyse m",
        WITH_MORE,
        b"",
        Status::Done,
        "accepts [\"a\"]\ndead [\"b\"]\nredundant [3]\ntrace [\"a\"]\ntrace [\"a\",\"a\"]\ntrace [\"a\",null]\n",
    ),
    (
        "analyse m --first 1",
        INIT,
        b"",
        Status::Done,
        "accepts [\"a\"]\ndead []\nredundant []\ntrace [\"a\"]\n",
    ),
];

#[test]
fn models_are_compared_and_analysed(rt: HostRuntime) -> Result<(), Fail> {
    for (words, first, second, status, want) in COMPARED {
        let ran = run_check(rt.alloc(), words, first, second)?;
        assert_eq!(rt; ran.status, *status);
        assert_eq!(rt; ran.out.bytes(), want.as_bytes());
        assert!(rt; ran.err.bytes().is_empty());
    }
    Ok(())
}

/// A first model is refused before a second is opened, and too many states after both.
#[test]
fn models_are_not_compared(rt: HostRuntime) -> Result<(), Fail> {
    let cases: [(&str, &[u8], Status, &str); 3] = [
        (
            "compare m nosuch",
            b"{",
            Status::BadModel,
            "minerful: the model is not JSON\n",
        ),
        (
            "compare m nosuch --max-states 1",
            CHAIN,
            Status::ReadFault,
            "minerful: read fault\n",
        ),
        (
            "compare m - --max-states 1",
            CHAIN,
            Status::Limit,
            "minerful: too many states, phase 5, constraints 1\n",
        ),
    ];
    for (words, first, status, line) in cases {
        let ran = run_check(rt.alloc(), words, first, ALTERNATE)?;
        assert_eq!(rt; ran.status, status);
        assert!(rt; ran.out.bytes().is_empty());
        assert_eq!(rt; ran.err.bytes(), line.as_bytes());
    }
    Ok(())
}

const COUNTED: &[u8] = b"{\"constraints\":[{\"template\":\"Exactly2\",\"parameters\":[[\"a\"]]}]}";

const SAME: &[u8] =
    b"{\"constraints\":[{\"template\":\"Response\",\"parameters\":[[\"a\"],[\"a\"]]}]}";

/// A model is refused before its log is opened, which isn't there.
#[test]
fn models_are_refused_first(rt: HostRuntime) -> Result<(), Fail> {
    let cases: [(&[u8], Status, &str); 4] = [
        (b"{", Status::BadModel, "minerful: the model is not JSON\n"),
        (
            SAME,
            Status::BadModel,
            "minerful: same parameter twice, constraint 1\n",
        ),
        (
            COUNTED,
            Status::BadModel,
            "minerful: unknown template, constraint 1\n",
        ),
        (INIT, Status::ReadFault, "minerful: read fault\n"),
    ];
    for (model, status, line) in cases {
        let ran = run_check(rt.alloc(), "check m nosuch", model, b"")?;
        assert_eq!(rt; ran.status, status);
        assert!(rt; ran.out.bytes().is_empty());
        assert_eq!(rt; ran.err.bytes(), line.as_bytes());
    }
    Ok(())
}

/// A report is a model that its own log keeps.
#[test]
fn reports_are_models(rt: HostRuntime) -> Result<(), Fail> {
    let report = run_with(rt.alloc(), "mine", b"ab\nab\n", CALM)?;
    let ran = run_check(rt.alloc(), "check m", report.out.bytes(), b"ab\nab\n")?;
    let want =
        " activated  fulfilled       kept      trace      place constraint\n         2          2          2          -          - Init(\"a\")\n         2          2          2          -          - End(\"b\")\n         2          2          2          -          - AtMostOne(\"a\")\n         2          2          2          -          - AtMostOne(\"b\")\n";
    assert_eq!(rt; ran.status, Status::Done);
    assert_eq!(rt; ran.out.bytes(), want.as_bytes());
    Ok(())
}

/// The summary of a sample has ten lines, and is the same each time.
#[test]
fn samples_are_mined(rt: HostRuntime) -> Result<(), Fail> {
    let first = run_with(rt.alloc(), "sample --seed 7", b"", CALM)?;
    let second = run_with(rt.alloc(), "sample --seed 7", b"ab\n", CALM)?;
    assert_eq!(rt; first.status, Status::Done);
    assert!(rt; first.out.bytes().starts_with(b"seed 7\ntraces 2000\n"));
    assert_eq!(rt;
        first.out.bytes().iter().filter(|byte| **byte == 10).count(),
        10
    );
    assert_eq!(rt; first.out.bytes(), second.out.bytes());
    Ok(())
}
