//! Runs in which one call of the outside fails, each call in its turn.
use super::commands::RESPONSE;
use super::reports::CASES;
use super::{CALM, Outside, Ran, run_on, run_with};
use decl_base::{Name, Status};
use decl_outside::{MemInputs, PlainInputs, PlainSink, write_all};
use std::alloc::Global;
use std::process::Abort;
use std::test::Fail;

/// The bytes that a write takes.
const PER_WRITE: u64 = 7;

/// A run that ends with this status where no call fails, with its model as the file `m` and its log as standard input.
#[derive(Clone, Copy)]
struct Case<'a> {
    words: &'a str,
    model: &'a [u8],
    log: &'a [u8],
    status: Status,
    /// The calls of the inputs: for each that is opened one, one for each byte, and one that finds its end.
    calls: u32,
}

/// The log of records has 206 bytes, and the model of the last case 83.
fn cases() -> [Case<'static>; 4] {
    [
        Case {
            words: "mine",
            model: b"",
            log: b"",
            status: Status::Done,
            calls: 2,
        },
        Case {
            words: "mine",
            model: b"",
            log: b"ab\nab\n",
            status: Status::Done,
            calls: 8,
        },
        Case {
            words: "mine --format csv",
            model: b"",
            log: CASES.as_bytes(),
            status: Status::Done,
            calls: 208,
        },
        Case {
            words: "check m",
            model: RESPONSE,
            log: b"ab\na\n",
            status: Status::Differs,
            calls: 92,
        },
    ]
}

/// Runs the case, where a read gives one byte.
fn run_case(alloc: Global, case: &Case, reads: &[u64], writes: &[u64]) -> Result<Ran, Fail> {
    let mut inputs = MemInputs::new(alloc, 1, reads.to_vec(alloc)?);
    inputs.put(Name::of(alloc, "m")?, case.model.to_vec(alloc)?)?;
    inputs.put(Name::of(alloc, "-")?, case.log.to_vec(alloc)?)?;
    let outside = Outside {
        writes,
        piece: PER_WRITE,
        ..CALM
    };
    run_on(alloc, case.words, &mut inputs, outside)
}

/// Each call of the inputs fails in its turn, and there is none after these.
fn fail_reads(rt: &impl Abort, alloc: Global, case: &Case) -> Result<(), Fail> {
    let calls = u64::from(case.calls);
    for failing in 1..=calls {
        let ran = run_case(alloc, case, &[failing], &[])?;
        assert_eq!(rt; ran.status, Status::ReadFault, "call {failing}");
        assert!(rt; ran.out.bytes().is_empty());
        assert_eq!(rt; ran.err.bytes(), b"minerful: read fault\n".as_slice());
    }
    let ran = run_case(alloc, case, &[calls + 1], &[])?;
    assert_eq!(rt; ran.status, case.status);
    assert!(rt; ran.err.bytes().is_empty());
    Ok(())
}

/// Each write of the output fails in its turn, after those before it: so many as the text has pieces.
fn fail_writes(rt: &impl Abort, alloc: Global, case: &Case) -> Result<(), Fail> {
    let calm = run_case(alloc, case, &[], &[])?;
    let mut held = Vec::new(alloc);
    let mut failing = 1;
    for piece in calm.out.bytes().chunks(PER_WRITE as usize) {
        let ran = run_case(alloc, case, &[], &[failing])?;
        assert_eq!(rt; ran.status, Status::WriteFault, "write {failing}");
        assert_eq!(rt; ran.out.bytes(), held.as_slice());
        assert_eq!(rt; ran.err.bytes(), b"minerful: write fault\n".as_slice());
        held.extend_from_slice(piece)?;
        failing = failing.saturating_add(1);
    }
    let ran = run_case(alloc, case, &[], &[failing])?;
    assert_eq!(rt; ran.status, case.status);
    assert_eq!(rt; ran.out.bytes(), held.as_slice());
    Ok(())
}

#[test]
fn reads_fail_in_turn(rt: HostRuntime) -> Result<(), Fail> {
    for case in cases() {
        fail_reads(&rt, rt.alloc(), &case)?;
    }
    Ok(())
}

#[test]
fn writes_fail_in_turn(rt: HostRuntime) -> Result<(), Fail> {
    for case in cases() {
        fail_writes(&rt, rt.alloc(), &case)?;
    }
    Ok(())
}

/// The line of a refusal can't be written: its status stands.
#[test]
fn no_words_and_no_standard_error(rt: HostRuntime) -> Result<(), Fail> {
    let unheard = Outside {
        lines: &[1],
        ..CALM
    };
    let ran = run_with(rt.alloc(), "", b"", unheard)?;
    assert_eq!(rt; ran.status, Status::Usage);
    assert!(rt; ran.out.bytes().is_empty());
    assert!(rt; ran.err.bytes().is_empty());
    Ok(())
}

/// Over inputs that never fail a log comes to the same, and its report fits a sink of just its room.
#[test]
fn nothing_fails(rt: HostRuntime) -> Result<(), Fail> {
    let alloc = rt.alloc();
    for log in [b"ab\nab\n".as_slice(), b"a\n".as_slice()] {
        let want = run_with(alloc, "mine", log, CALM)?;
        let mut inputs = PlainInputs::new(alloc, 1);
        inputs.put(Name::of(alloc, "-")?, log.to_vec(alloc)?)?;
        let ran = run_on(alloc, "mine", &mut inputs, CALM)?;
        assert_eq!(rt; ran.status, Status::Done);
        assert_eq!(rt; ran.out.bytes(), want.out.bytes());
        let text = ran.out.bytes();
        let mut sink = PlainSink::new(alloc, text.len() as u64, PER_WRITE)?;
        assert!(rt; write_all(&mut sink, text).is_ok());
        assert_eq!(rt; sink.bytes(), text);
    }
    Ok(())
}
