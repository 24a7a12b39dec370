use crate::{
    Inputs, Lines, MemInputs, MemSink, PlainInputs, PlainSink, StdInputs, StdSink, read_all,
    write_all,
};
use decl_base::{Name, Refusal};
use std::test::Fail;

fn log_of(rt: &HostRuntime, bytes: &[u8], per_read: u64, failing: &[u64]) -> Result<MemInputs, Fail>
    requires { 0 < per_read }
    ensures { IfOk result (λ inputs. (state_of inputs).is_open ≡ true) }
{
    let alloc = rt.alloc();
    let mut inputs = MemInputs::new(alloc, per_read, failing.to_vec(alloc)?);
    inputs.put(Name::of(alloc, "log")?, bytes.to_vec(alloc)?)?;
    inputs.open(Name::of(alloc, "log")?)?;
    Ok(inputs)
}

ghost use Rattle.std.specs.Prelude.{◌≡◌, ◌<◌, true, IfOk};
ghost use Rattle.decl_outside.specs.MemInputs.{state_of};

/// Each line in brackets.
fn lines_of(rt: &HostRuntime, bytes: &[u8], limit: u64, per_read: u64) -> Result<Vec<u8>, Fail>
    requires { 0 < per_read }
{
    let alloc = rt.alloc();
    let mut inputs = log_of(rt, bytes, per_read, &[])?;
    let mut lines = Lines::new(alloc, limit)?;
    let mut text = Vec::new(alloc);
    for _turn in 0u64..9 {
        if !lines.is_live() {
            break;
        }
        match lines.next(&mut inputs) {
            Ok(_) => {}
            Err(refusal) => {
                text.extend_from_slice(format!(in alloc; "{refusal:?}")?.as_bytes())?;
                break;
            }
        }
        let Some(line) = lines.line() else {
            break;
        };
        text.push(b'[')?;
        text.extend_from_slice(line.bytes())?;
        text.push(b']')?;
    }
    Ok(text)
}

#[test]
fn gives_lines(rt: HostRuntime) -> Result<(), Fail> {
    for per_read in [1, 2, 65536] {
        for (bytes, limit, want) in [
            ("ab\r\nab", 9, "[ab][ab]"),
            ("a\rb\nc\r", 9, "[a\rb][c\r]"),
            ("", 9, ""),
            ("\n", 9, "[]"),
            ("ab\n", 2, "[ab]"),
            ("ab\r\n", 2, "LineLong { line: 1 }"),
            ("ab\nabc", 2, "[ab]LineLong { line: 2 }"),
        ] {
            let text = lines_of(&rt, bytes.as_bytes(), limit, per_read)?;
            assert_eq!(rt; text.as_slice(), want.as_bytes(), "{per_read} {want}");
        }
    }
    Ok(())
}

#[test]
fn faults(rt: HostRuntime) -> Result<(), Fail> {
    let alloc = rt.alloc();
    let mut inputs = log_of(&rt, b"ab\nc", 3, &[3])?;
    let mut lines = Lines::new(alloc, 9)?;
    assert!(rt; lines.next(&mut inputs)?);
    assert_eq!(rt; lines.next(&mut inputs), Err(Refusal::ReadFault));
    assert!(rt; !lines.is_live());
    let four = read_all(alloc, &mut log_of(&rt, b"abcd", 3, &[])?, 3);
    assert_eq!(rt; four.err(), Some(Refusal::Bytes { limit: 3 }));
    let three = read_all(alloc, &mut log_of(&rt, b"abc", 3, &[])?, 3)?;
    assert_eq!(rt; three.as_slice(), b"abc".as_slice());
    let mut sink = MemSink::new(alloc, 9, 2, vec![in alloc; 2]?)?;
    assert!(rt; write_all(&mut sink, b"abc").is_err());
    assert_eq!(rt; sink.bytes(), b"ab".as_slice());
    Ok(())
}

#[test]
fn plain_inputs_read_back(rt: HostRuntime) -> Result<(), Fail> {
    let alloc = rt.alloc();
    let mut inputs = PlainInputs::new(alloc, 1);
    inputs.put(Name::of(alloc, "log")?, b"ab".to_vec(alloc)?)?;
    inputs.put(Name::of(alloc, "log")?, b"cd\n".to_vec(alloc)?)?;
    for (name, want) in [("log", "cd\n"), ("other", ""), ("log", "cd\n")] {
        inputs.open(Name::of(alloc, name)?)?;
        let bytes = read_all(alloc, &mut inputs, 3)?;
        assert_eq!(rt; bytes.as_slice(), want.as_bytes());
    }
    Ok(())
}

#[test]
fn plain_sink_takes_its_room(rt: HostRuntime) -> Result<(), Fail> {
    let alloc = rt.alloc();
    let text = b"{\"constraints\":[],\"events\":0}";
    let mut sink = PlainSink::new(alloc, text.len() as u64, 2)?;
    assert!(rt; write_all(&mut sink, text).is_ok());
    assert_eq!(rt; sink.bytes(), text.as_slice());
    Ok(())
}

#[test]
fn standard_sink_writes(rt: HostRuntime) -> Result<(), Fail> {
    let mut bytes = Vec::new(rt.alloc());
    let mut sink = StdSink::new(&mut bytes);
    assert!(rt; write_all(&mut sink, b"abc").is_ok());
    drop(sink);
    assert_eq!(rt; bytes.as_slice(), b"abc".as_slice());
    Ok(())
}

#[test]
fn standard_inputs_read_files(rt: HostRuntime) -> Result<(), Fail> {
    let alloc = rt.alloc();
    let mut inputs = StdInputs::new(rt);
    assert!(rt; inputs.open(Name::of(alloc, "no/such/file")?).is_err());
    inputs.open(Name::of(alloc, "/dev/zero")?)?;
    let mut buffer = [1; 4];
    assert_eq!(rt; inputs.read(&mut buffer)?, 4);
    assert_eq!(rt; buffer, [0; 4]);
    Ok(())
}
