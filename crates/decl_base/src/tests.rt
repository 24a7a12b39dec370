//! What no clause says.
use crate::{Name, Refusal, Threshold, Trace, line_of};
use std::test::Fail;

#[test]
fn texts_of_thresholds(rt: HostRuntime) -> Result<(), Fail> {
    let cases = [
        ("0", Some(0)),
        ("1", Some(1_000_000)),
        ("1.000000", Some(1_000_000)),
        ("0.95", Some(950_000)),
        ("0.000001", Some(1)),
        ("0.1234567", None),
        ("1.1", None),
        (".5", None),
        ("0.", None),
        ("00", None),
        ("1.", None),
        ("", None),
    ];
    for (text, millionths) in cases {
        let read = Threshold::read(text).map(|threshold| threshold.millionths);
        assert_eq!(rt; read, millionths);
    }
    Ok(())
}

#[test]
fn thresholds_are_met_from_equality_on(rt: HostRuntime) -> Result<(), Fail> {
    let half = Threshold {
        millionths: 500_000,
    };
    assert!(rt; half.met(500, 1000));
    assert!(rt; half.met(501, 1000));
    assert!(rt; !half.met(499, 1000));
    Ok(())
}

#[test]
fn names_and_traces_are_made(rt: HostRuntime) -> Result<(), Fail> {
    let alloc = rt.alloc();
    assert_eq!(rt; Name::of(alloc, "pay")?.text(), "pay");
    assert!(rt; Name::of(alloc, "pay")? < Name::of(alloc, "ship")?);
    assert_eq!(rt; Trace::of(alloc, &[1, 0])?.events(), [1, 0].as_slice());
    Ok(())
}

/// One of each.
fn each_refusal() -> [Refusal; 23] {
    [
        Refusal::Usage { at: 7 },
        Refusal::NotUtf8 { line: 1 },
        Refusal::Header { which: 3 },
        Refusal::ShortRow { row: 12 },
        Refusal::RowText { row: 2 },
        Refusal::RowOrder {
            row: 18_446_744_073_709_551_615,
        },
        Refusal::NoTab { line: 2 },
        Refusal::NotJson,
        Refusal::ModelShape { at: 0 },
        Refusal::UnknownTemplate { at: 1 },
        Refusal::Parameters { at: 2 },
        Refusal::SameParameter { at: 4_294_967_295 },
        Refusal::CertShape { part: 6 },
        Refusal::LineLong { line: 4 },
        Refusal::Bytes { limit: 134_217_728 },
        Refusal::Traces { limit: 1_048_575 },
        Refusal::Events { limit: 16_777_215 },
        Refusal::Activities { limit: 1_000 },
        Refusal::Candidates { count: 65_537 },
        Refusal::States {
            phase: 1,
            built: 17,
        },
        Refusal::ReadFault,
        Refusal::WriteFault,
        Refusal::Memory,
    ]
}

#[test]
fn derived_texts_are_the_lines(rt: HostRuntime) -> Result<(), Fail> {
    let alloc = rt.alloc();
    for refusal in each_refusal() {
        let mut text = refusal.to_string(alloc)?;
        text.push('\n')?;
        assert_eq!(rt; text.as_str(), line_of(&refusal).as_str());
    }
    Ok(())
}
