//! Certificates that the program makes, as they are and changed, and files that are none.
use super::{CALM, run_check, run_with};
use decl_base::Status;
use std::alloc::Global;
use std::str::from_utf8;
use std::test::Fail;

/// The text with this part of it, where it first stands, put in another's place.
fn changed(alloc: Global, text: &str, old: &str, new: &str) -> Result<String, Fail> {
    let (front, back) = text.split_once(old).unwrap_or((text, ""));
    Ok(format!(in alloc; "{front}{new}{back}")?)
}

/// What is put in the place of what, and the text of the verdict.
const CHANGES: &[(&str, &str, Status, &str)] = &[
    ("", "", Status::Done, "yes\n"),
    (
        "\"witness\":[\"a\",\"a\"]",
        "\"witness\":[\"a\"]",
        Status::Differs,
        "no, check 2, item 2\n",
    ),
    (
        "\"example\":[\"a\"]",
        "\"example\":[]",
        Status::Differs,
        "no, check 1, item 1\n",
    ),
    (
        "\"template\":\"End\",\"why\":\"first-pass\"",
        "\"template\":\"End\",\"why\":\"conflict\"",
        Status::Differs,
        "no, check 4, item 1\n",
    ),
];

#[test]
fn certificates_are_verified(rt: HostRuntime) -> Result<(), Fail> {
    let made = run_with(rt.alloc(), "mine --out cert", b"a\n", CALM)?;
    assert_eq!(rt; made.status, Status::Done);
    let text = from_utf8(made.out.bytes()).unwrap_or("");
    for (old, new, status, want) in CHANGES {
        let certificate = changed(rt.alloc(), text, old, new)?;
        let ran = run_check(rt.alloc(), "verify m", certificate.as_bytes(), b"")?;
        assert_eq!(rt; ran.status, *status);
        assert_eq!(rt; ran.out.bytes(), want.as_bytes());
        assert!(rt; ran.err.bytes().is_empty());
    }
    Ok(())
}

#[test]
fn files_that_are_no_certificates(rt: HostRuntime) -> Result<(), Fail> {
    let cases = [
        ("{", "minerful: the model is not JSON\n"),
        ("{}", "minerful: certificate shape, part 1\n"),
        (
            "{\"report\":{\"tasks\":[],\"constraints\":[],\"dropped\":[],\"example\":[]},\"chain\":[{}],\"implied\":[]}",
            "minerful: certificate shape, part 5\n",
        ),
    ];
    for (text, line) in cases {
        let ran = run_check(rt.alloc(), "verify m", text.as_bytes(), b"")?;
        assert_eq!(rt; ran.status, Status::BadModel);
        assert!(rt; ran.out.bytes().is_empty());
        assert_eq!(rt; ran.err.bytes(), line.as_bytes());
    }
    Ok(())
}
