ghost use Rattle.std.specs.Prelude.{◌≡◌, ◌<◌, true, IfOk};
ghost use Rattle.decl_outside.specs.MemInputs.{state_of};
ghost use Rattle.strings_log.specs.Feeding.{CanFeed};

use decl_base::{Limits, Name, Refusal};
use decl_outside::{Inputs, MemInputs};
use event_log::{Alphabet, Log};
use std::alloc::Global;
use std::test::Fail;
use strings_log::{feed_strings, read_strings};

fn opened(alloc: Global, bytes: &[u8], per_read: u64, failing: &[u64]) -> Result<MemInputs, Fail>
    requires { 0 < per_read }
    ensures { IfOk result (λ inputs. (state_of inputs).is_open ≡ true) }
{
    let mut inputs = MemInputs::new(alloc, per_read, failing.to_vec(alloc)?);
    inputs.put(Name::of(alloc, "log")?, bytes.to_vec(alloc)?)?;
    inputs.open(Name::of(alloc, "log")?)?;
    Ok(inputs)
}

fn read(alloc: Global, text: &str, per_read: u64) -> Result<(Alphabet, Log), Fail>
    requires { 0 < per_read }
{
    let mut inputs = opened(alloc, text.as_bytes(), per_read, &[])?;
    Ok(read_strings(alloc, &mut inputs, &Limits::standard())?)
}

#[test]
fn reads_a_log(rt: HostRuntime) -> Result<(), Fail> {
    for per_read in [1, 9] {
        let (names, log) = read(rt.alloc(), "bé\r\n\nb\r", per_read)?;
        assert_eq!(rt; names.len(), 3);
        assert_eq!(rt; names.name(1), "é");
        assert_eq!(rt; log.traces(), 3);
        assert_eq!(rt; log.trace(0), [0, 1].as_slice());
        assert_eq!(rt; log.trace(1).len(), 0);
        assert_eq!(rt; log.trace(2), [0, 2].as_slice());
    }
    Ok(())
}

/// What each of the two readers refuses these bytes with, two a read.
fn refusals(
    alloc: Global,
    bytes: &[u8],
    limits: &Limits,
    failing: &[u64],
) -> Result<(Option<Refusal>, Option<Refusal>), Fail>
    requires { CanFeed limits.now }
{
    let read = read_strings(alloc, &mut opened(alloc, bytes, 2, failing)?, limits);
    let fed = feed_strings(alloc, &mut opened(alloc, bytes, 2, failing)?, limits);
    Ok((read.err(), fed.err()))
}

#[test]
fn names_the_first_fault(rt: HostRuntime) -> Result<(), Fail> {
    let alloc = rt.alloc();
    let limits = Limits {
        events: 3,
        traces: 2,
        activities: 2,
        line_bytes: 4,
        ..Limits::standard()
    };
    let cases = [
        (b"ab\r\n\xff\n".as_slice(), Refusal::NotUtf8 { line: 2 }),
        (b"abc".as_slice(), Refusal::Activities { limit: 2 }),
        (b"ab\nab".as_slice(), Refusal::Events { limit: 3 }),
        (b"abcd".as_slice(), Refusal::Events { limit: 3 }),
        (b"a\nb\n\xff".as_slice(), Refusal::Traces { limit: 2 }),
        (b"a\nabcd\r\n".as_slice(), Refusal::LineLong { line: 2 }),
    ];
    for (bytes, refusal) in cases {
        let found = refusals(alloc, bytes, &limits, &[])?;
        assert_eq!(rt; found, (Some(refusal), Some(refusal)), "{refusal:?}");
    }
    Ok(())
}

/// A line that is as long as the limit is accepted, and its carriage return counts.
#[test]
fn counts_a_line(rt: HostRuntime) -> Result<(), Fail> {
    let alloc = rt.alloc();
    let limits = Limits {
        traces: 1,
        line_bytes: 2,
        ..Limits::standard()
    };
    let cases = [
        (b"ab\n\xff".as_slice(), Some(Refusal::Traces { limit: 1 })),
        (b"ab\r\n".as_slice(), Some(Refusal::LineLong { line: 1 })),
        (b"ab\n".as_slice(), None),
    ];
    for (bytes, refusal) in cases {
        let found = refusals(alloc, bytes, &limits, &[])?;
        assert_eq!(rt; found, (refusal, refusal), "{refusal:?}");
    }
    Ok(())
}

/// The first read gives two bytes, and the second fails.
#[test]
fn a_read_fails(rt: HostRuntime) -> Result<(), Fail> {
    let alloc = rt.alloc();
    let cases = [
        (b"a\nb".as_slice(), Refusal::ReadFault),
        (b"\xff\xffa".as_slice(), Refusal::ReadFault),
        (b"\xff\na".as_slice(), Refusal::NotUtf8 { line: 1 }),
    ];
    for (bytes, refusal) in cases {
        let found = refusals(alloc, bytes, &Limits::standard(), &[3])?;
        assert_eq!(rt; found, (Some(refusal), Some(refusal)), "{refusal:?}");
    }
    Ok(())
}

/// The names and counters are the same, wherever the first read ends.
#[test]
fn feeds_a_log(rt: HostRuntime) -> Result<(), Fail> {
    for per_read in 1..11 {
        let mut inputs = opened(rt.alloc(), "aé\r\n\nbé".as_bytes(), per_read, &[])?;
        let (names, kb) = feed_strings(rt.alloc(), &mut inputs, &Limits::standard())?;
        assert_eq!(rt; names.len(), 3);
        assert_eq!(rt; (names.name(1), names.name(2)), ("é", "b"));
        assert_eq!(rt; (kb.traces(), kb.events()), (3, 4));
        assert_eq!(rt; kb.unary(1).last, 2);
        assert_eq!(rt; (kb.pair(1, 2).without, kb.pair(0, 1).next), (1, 1));
    }
    Ok(())
}

/// Lines that repeat what is known, as the first ones.
#[test]
fn feeds_known_characters(rt: HostRuntime) -> Result<(), Fail> {
    for bytes in [b"ab\nab\n".as_slice(), b"ab\r\nab"] {
        let mut inputs = opened(rt.alloc(), bytes, 1, &[])?;
        let (names, kb) = feed_strings(rt.alloc(), &mut inputs, &Limits::standard())?;
        assert_eq!(rt; names.len(), 2);
        assert_eq!(rt; kb.traces(), 2);
        assert_eq!(rt; (kb.unary(0).first, kb.unary(1).last), (2, 2));
        let pair = kb.pair(0, 1);
        assert_eq!(rt; (pair.next, pair.without), (2, 0));
    }
    Ok(())
}

/// An activity that comes late is missing in the traces before it.
#[test]
fn feeds_a_late_name(rt: HostRuntime) -> Result<(), Fail> {
    let mut inputs = opened(rt.alloc(), b"ab\nc", 1, &[])?;
    let (names, kb) = feed_strings(rt.alloc(), &mut inputs, &Limits::standard())?;
    assert_eq!(rt; names.len(), 3);
    assert_eq!(rt; (kb.pair(0, 2).without, kb.pair(2, 0).without), (1, 1));
    Ok(())
}
