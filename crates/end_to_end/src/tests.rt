//! Words and inputs in memory, and what stands on the two sinks then. Each text was worked out from the definitions,
//! and not by this program.
ghost use Rattle.std.specs.Prelude.{◌<◌};

mod automata;
mod certified;
mod commands;
mod faults;
mod limits;
mod reports;
mod running;

use decl_base::{Name, Status};
use decl_outside::{Inputs, MemInputs, MemSink};
use minerful_core::run;
use std::alloc::Global;
use std::str::from_utf8;
use std::test::Fail;

const ROOM: u64 = 65536;

const STRICT: &str = "mine --stage scores --support 1 --confidence 1 --interest 1";

const ALL: &str = "mine --stage scores --support 0 --confidence 0 --interest 0";

const HALF: &str = "mine --stage consistent --support 0.5 --confidence 0 --interest 0";

/// What a run gave.
#[derive(Drop)]
struct Ran {
    status: Status,
    out: MemSink,
    err: MemSink,
}

/// Which calls of the inputs and of the two sinks fail, and how many bytes a call moves.
#[derive(Clone, Copy)]
struct Outside<'a> {
    reads: &'a [u64],
    writes: &'a [u64],
    lines: &'a [u64],
    piece: u64,
}

const CALM: Outside<'static> = Outside {
    reads: &[],
    writes: &[],
    lines: &[],
    piece: 10,
};

/// Runs the words, parted by spaces, with these bytes as standard input and as the file `log.txt`.
fn run_with(alloc: Global, words: &str, bytes: &[u8], outside: Outside) -> Result<Ran, Fail>
    requires { 0 < outside.piece }
{
    let mut inputs = MemInputs::new(alloc, outside.piece, outside.reads.to_vec(alloc)?);
    inputs.put(Name::of(alloc, "-")?, bytes.to_vec(alloc)?)?;
    inputs.put(Name::of(alloc, "log.txt")?, bytes.to_vec(alloc)?)?;
    run_on(alloc, words, &mut inputs, outside)
}

/// Runs the words, parted by spaces, on these inputs.
fn run_on<I: Inputs>(
    alloc: Global,
    words: &str,
    inputs: &mut I,
    outside: Outside,
) -> Result<Ran, Fail>
    requires { 0 < outside.piece }
{
    let mut list = Vec::new(alloc);
    for word in words.split_ascii_whitespace() {
        list.push(String::from_str(alloc, word)?)?;
    }
    let mut out = MemSink::new(alloc, ROOM, outside.piece, outside.writes.to_vec(alloc)?)?;
    let mut err = MemSink::new(alloc, ROOM, outside.piece, outside.lines.to_vec(alloc)?)?;
    let status = run(alloc, &list, inputs, &mut out, &mut err);
    Ok(Ran { status, out, err })
}

/// Runs the words with this model as the file `m` and this log as standard input.
fn run_check(alloc: Global, words: &str, model: &[u8], log: &[u8]) -> Result<Ran, Fail> {
    let mut inputs = MemInputs::new(alloc, CALM.piece, Vec::new(alloc));
    inputs.put(Name::of(alloc, "m")?, model.to_vec(alloc)?)?;
    inputs.put(Name::of(alloc, "-")?, log.to_vec(alloc)?)?;
    run_on(alloc, words, &mut inputs, CALM)
}

/// The piece so many times, between these.
fn repeated(
    alloc: Global,
    before: &[u8],
    piece: &[u8],
    times: u32,
    after: &[u8],
) -> Result<Vec<u8>, Fail> {
    let mut bytes = before.to_vec(alloc)?;
    for _ in 0..times {
        bytes.extend_from_slice(piece)?;
    }
    bytes.extend_from_slice(after)?;
    Ok(bytes)
}

#[test]
fn reports_are_printed(rt: HostRuntime) -> Result<(), Fail> {
    let cases = [
        (
            "mine",
            "",
            "{\"constraints\":[],\"dropped\":[],\"events\":0,\"example\":[],\"tasks\":[],\"traces\":0}\n",
        ),
        (
            "mine",
            "\n",
            "{\"constraints\":[],\"dropped\":[],\"events\":0,\"example\":[],\"tasks\":[],\"traces\":1}\n",
        ),
        (
            STRICT,
            "é\n",
            "{\"constraints\":[{\"confidence\":[1,1],\"interest\":[1,1],\"parameters\":[[\"é\"]],\"support\":[1,1],\"template\":\"Init\"},{\"confidence\":[1,1],\"interest\":[1,1],\"parameters\":[[\"é\"]],\"support\":[1,1],\"template\":\"End\"},{\"confidence\":[1,1],\"interest\":[1,1],\"parameters\":[[\"é\"]],\"support\":[1,1],\"template\":\"Participation\"},{\"confidence\":[1,1],\"interest\":[1,1],\"parameters\":[[\"é\"]],\"support\":[1,1],\"template\":\"AtMostOne\"}],\"events\":1,\"tasks\":[\"é\"],\"traces\":1}\n",
        ),
        (
            STRICT,
            "\u{1}\n\"\n\\\né\n😀\n",
            "{\"constraints\":[],\"events\":5,\"tasks\":[\"\\u0001\",\"\\\"\",\"\\\\\",\"é\",\"😀\"],\"traces\":5}\n",
        ),
        (
            HALF,
            "a\nb\n",
            "{\"constraints\":[{\"confidence\":[1,1],\"interest\":[1,2],\"parameters\":[[\"a\"]],\"support\":[1,1],\"template\":\"AtMostOne\"},{\"confidence\":[1,1],\"interest\":[1,2],\"parameters\":[[\"b\"]],\"support\":[1,1],\"template\":\"AtMostOne\"},{\"confidence\":[1,1],\"interest\":[1,2],\"parameters\":[[\"a\"],[\"b\"]],\"support\":[1,1],\"template\":\"NotCoExistence\"},{\"confidence\":[1,1],\"interest\":[1,2],\"parameters\":[[\"a\"],[\"b\"]],\"support\":[1,1],\"template\":\"NotSuccession\"},{\"confidence\":[1,1],\"interest\":[1,2],\"parameters\":[[\"b\"],[\"a\"]],\"support\":[1,1],\"template\":\"NotSuccession\"},{\"confidence\":[1,1],\"interest\":[1,2],\"parameters\":[[\"a\"],[\"b\"]],\"support\":[1,1],\"template\":\"NotChainSuccession\"},{\"confidence\":[1,1],\"interest\":[1,2],\"parameters\":[[\"b\"],[\"a\"]],\"support\":[1,1],\"template\":\"NotChainSuccession\"},{\"confidence\":[1,2],\"interest\":[1,4],\"parameters\":[[\"a\"]],\"support\":[1,2],\"template\":\"Init\"},{\"confidence\":[1,2],\"interest\":[1,4],\"parameters\":[[\"a\"]],\"support\":[1,2],\"template\":\"End\"},{\"confidence\":[1,2],\"interest\":[1,4],\"parameters\":[[\"a\"]],\"support\":[1,2],\"template\":\"Participation\"}],\"dropped\":[{\"confidence\":[1,2],\"interest\":[1,4],\"parameters\":[[\"b\"]],\"support\":[1,2],\"template\":\"Init\",\"why\":\"conflict\"},{\"confidence\":[1,2],\"interest\":[1,4],\"parameters\":[[\"b\"]],\"support\":[1,2],\"template\":\"End\",\"why\":\"conflict\"},{\"confidence\":[1,2],\"interest\":[1,4],\"parameters\":[[\"b\"]],\"support\":[1,2],\"template\":\"Participation\",\"why\":\"conflict\"}],\"events\":2,\"example\":[\"a\"],\"tasks\":[\"a\",\"b\"],\"traces\":2}\n",
        ),
        (
            "kb",
            "ab\n",
            "traces 1\n occurrences       traces     repeated        first         last activity\n           1            1            0            1            0 \"a\"\n           1            1            0            0            1 \"b\"\n     without     no_later   no_earlier         next     previous    rep_later  rep_earlier     together pair\n           0            0            1            1            0            0            0            1 \"a\" \"b\"\n           0            1            0            0            1            0            0            1 \"b\" \"a\"\n",
        ),
        (
            "mine --out table",
            "a\n",
            "     support   confidence     interest constraint\n         1/1          1/1          1/1 Init(\"a\") []\n         1/1          1/1          1/1 AtMostOne(\"a\") [\"a\",\"a\"]\n",
        ),
        (
            "mine --stage consistent --out table",
            "a\n",
            "     support   confidence     interest constraint\n         1/1          1/1          1/1 Init(\"a\")\n         1/1          1/1          1/1 End(\"a\")\n         1/1          1/1          1/1 Participation(\"a\")\n         1/1          1/1          1/1 AtMostOne(\"a\")\n",
        ),
        ("regex AtMost2", "", "x*(ax*)?(ax*)?\n"),
        ("regex Response aab", "", "yes\n"),
        (
            "gen --seed 0 --traces 2 --length 3 --letters 3",
            "",
            "aa\nba\n",
        ),
        (
            "kb",
            "",
            "traces 0\n occurrences       traces     repeated        first         last activity\n     without     no_later   no_earlier         next     previous    rep_later  rep_earlier     together pair\n",
        ),
        (
            "mine --stage scores --support 1 --confidence 1 --interest 1 --format csv",
            "case,activity\n1,a\n",
            "{\"constraints\":[{\"confidence\":[1,1],\"interest\":[1,1],\"parameters\":[[\"a\"]],\"support\":[1,1],\"template\":\"Init\"},{\"confidence\":[1,1],\"interest\":[1,1],\"parameters\":[[\"a\"]],\"support\":[1,1],\"template\":\"End\"},{\"confidence\":[1,1],\"interest\":[1,1],\"parameters\":[[\"a\"]],\"support\":[1,1],\"template\":\"Participation\"},{\"confidence\":[1,1],\"interest\":[1,1],\"parameters\":[[\"a\"]],\"support\":[1,1],\"template\":\"AtMostOne\"}],\"events\":1,\"tasks\":[\"a\"],\"traces\":1}\n",
        ),
    ];
    for (words, bytes, want) in cases {
        let ran = run_with(rt.alloc(), words, bytes.as_bytes(), CALM)?;
        assert_eq!(rt; ran.status, Status::Done);
        assert_eq!(rt; ran.out.bytes(), want.as_bytes());
        assert!(rt; ran.err.bytes().is_empty());
    }
    Ok(())
}

#[test]
fn refusals_are_told(rt: HostRuntime) -> Result<(), Fail> {
    let cases: [(&str, &[u8], Status, &str); 15] = [
        ("", b"", Status::Usage, "minerful: usage, place 0\n"),
        (
            "mine --nosuch",
            b"",
            Status::Usage,
            "minerful: usage, place 1\n",
        ),
        (
            "mine --support 1.1",
            b"",
            Status::Usage,
            "minerful: usage, place 7\n",
        ),
        (
            "mine --repertoire 3",
            b"",
            Status::Usage,
            "minerful: usage, place 19\n",
        ),
        (
            "regex Respond",
            b"",
            Status::Usage,
            "minerful: usage, place 22\n",
        ),
        (
            "mine --out x --format y",
            b"",
            Status::Usage,
            "minerful: usage, place 2\n",
        ),
        (
            "mine",
            b"ab\n\xff\n",
            Status::BadLog,
            "minerful: line 2 is not UTF-8\n",
        ),
        (
            "kb --format csv",
            b"case,activity\n1,a,x\n1\n",
            Status::BadLog,
            "minerful: record 3 is too short\n",
        ),
        (
            "mine --format csv --order-column n --order-as number",
            b"case,activity,n\n1,a,x1\n",
            Status::BadLog,
            "minerful: record 2 has no order number\n",
        ),
        (
            "mine --format csv",
            b"",
            Status::BadLog,
            "minerful: no column, place 1\n",
        ),
        (
            "kb --format csv",
            b"\xef\xbb\xbf\xef\xbb\xbf\xef\xbb\xbfcase,activity\n1,a\n",
            Status::BadLog,
            "minerful: no column, place 1\n",
        ),
        (
            "mine --stage consistent --max-states 3",
            b"ab\nab\n",
            Status::Limit,
            "minerful: too many states, phase 1, constraints 2\n",
        ),
        (
            "mine --max-states 4",
            b"ab\nab\n",
            Status::Limit,
            "minerful: too many states, phase 3, constraints 2\n",
        ),
        (
            "mine",
            b"abcdefghijklmnop\n",
            Status::Limit,
            "minerful: too many states, phase 1, constraints 17\n",
        ),
        (
            "mine nosuch",
            b"ab\n",
            Status::ReadFault,
            "minerful: read fault\n",
        ),
    ];
    for (words, bytes, status, line) in cases {
        let ran = run_with(rt.alloc(), words, bytes, CALM)?;
        assert_eq!(rt; ran.status, status);
        assert!(rt; ran.out.bytes().is_empty());
        assert_eq!(rt; ran.err.bytes(), line.as_bytes());
    }
    Ok(())
}

#[test]
fn faults_are_told(rt: HostRuntime) -> Result<(), Fail> {
    let broken = Outside {
        writes: &[2],
        ..CALM
    };
    let ran = run_with(rt.alloc(), "mine", b"", broken)?;
    assert_eq!(rt; ran.status, Status::WriteFault);
    assert_eq!(rt; ran.out.bytes(), b"{\"constrai".as_slice());
    assert_eq!(rt; ran.err.bytes(), b"minerful: write fault\n".as_slice());
    for failing in 1..4 {
        let unread = Outside {
            reads: &[failing],
            piece: 1,
            ..CALM
        };
        let ran = run_with(rt.alloc(), "mine", b"ab\n", unread)?;
        assert_eq!(rt; ran.status, Status::ReadFault);
        assert!(rt; ran.out.bytes().is_empty());
    }
    let unheard = Outside {
        lines: &[1],
        ..CALM
    };
    let ran = run_with(rt.alloc(), "mine", b"\xff\n", unheard)?;
    assert_eq!(rt; ran.status, Status::BadLog);
    assert!(rt; ran.err.bytes().is_empty());
    Ok(())
}

#[test]
fn pieces_change_nothing(rt: HostRuntime) -> Result<(), Fail> {
    let small = Outside { piece: 1, ..CALM };
    let whole = run_with(rt.alloc(), "mine", "éa\r\néb".as_bytes(), CALM)?;
    let cut = run_with(rt.alloc(), "mine", "éa\r\néb".as_bytes(), small)?;
    assert_eq!(rt; whole.status, Status::Done);
    assert_eq!(rt; whole.out.bytes(), cut.out.bytes());
    let table = run_with(
        rt.alloc(),
        "mine --format csv",
        "case,activity\n2,é\n1,é\n2,b\n1,a\n".as_bytes(),
        small,
    )?;
    assert_eq!(rt; table.out.bytes(), whole.out.bytes());
    Ok(())
}

/// Whether the output has this text somewhere.
fn has(ran: &Ran, text: &str) -> bool {
    match from_utf8(ran.out.bytes()) {
        Ok(out) => out.find(text).is_some(),
        Err(_) => false,
    }
}

/// Single constraints of reports, each worked out by hand.
#[test]
fn scores_are_exact(rt: HostRuntime) -> Result<(), Fail> {
    let cases = [
        (
            "aab",
            "{\"confidence\":[1,1],\"interest\":[1,1],\"parameters\":[[\"a\"],[\"b\"]],\"support\":[1,1],\"template\":\"Response\"}",
        ),
        (
            "aab",
            "{\"confidence\":[1,2],\"interest\":[1,2],\"parameters\":[[\"a\"],[\"b\"]],\"support\":[1,2],\"template\":\"AlternateResponse\"}",
        ),
        (
            "aab",
            "{\"confidence\":[1,2],\"interest\":[1,2],\"parameters\":[[\"a\"],[\"b\"]],\"support\":[1,2],\"template\":\"ChainResponse\"}",
        ),
        (
            "aab",
            "{\"confidence\":[1,1],\"interest\":[1,1],\"parameters\":[[\"a\"],[\"b\"]],\"support\":[1,1],\"template\":\"AlternatePrecedence\"}",
        ),
        (
            "aab",
            "{\"confidence\":[2,3],\"interest\":[2,3],\"parameters\":[[\"a\"],[\"b\"]],\"support\":[2,3],\"template\":\"AlternateSuccession\"}",
        ),
        (
            "ab\nc",
            "{\"confidence\":[1,1],\"interest\":[1,2],\"parameters\":[[\"a\"],[\"c\"]],\"support\":[1,1],\"template\":\"NotCoExistence\"}",
        ),
        (
            "ab\na\nc",
            "{\"confidence\":[1,3],\"interest\":[1,9],\"parameters\":[[\"a\"],[\"b\"]],\"support\":[1,2],\"template\":\"Response\"}",
        ),
        (
            "aba",
            "{\"confidence\":[1,1],\"interest\":[1,1],\"parameters\":[[\"a\"],[\"b\"]],\"support\":[1,1],\"template\":\"Precedence\"}",
        ),
        (
            "aba",
            "{\"confidence\":[1,2],\"interest\":[1,2],\"parameters\":[[\"a\"],[\"b\"]],\"support\":[1,2],\"template\":\"Response\"}",
        ),
        (
            "aba",
            "{\"confidence\":[2,3],\"interest\":[2,3],\"parameters\":[[\"a\"],[\"b\"]],\"support\":[2,3],\"template\":\"Succession\"}",
        ),
        (
            "aba",
            "{\"confidence\":[1,3],\"interest\":[1,3],\"parameters\":[[\"b\"],[\"a\"]],\"support\":[1,3],\"template\":\"NotSuccession\"}",
        ),
        (
            "ba",
            "{\"confidence\":[0,1],\"interest\":[0,1],\"parameters\":[[\"a\"],[\"b\"]],\"support\":[0,1],\"template\":\"ChainPrecedence\"}",
        ),
    ];
    for (log, want) in cases {
        let ran = run_with(rt.alloc(), ALL, log.as_bytes(), CALM)?;
        assert_eq!(rt; ran.status, Status::Done);
        assert!(rt; has(&ran, want), "{want} of {log}");
    }
    Ok(())
}

/// Words that print the same: a threshold in two spellings and as the default, a log by its name.
#[test]
fn spellings_print_the_same(rt: HostRuntime) -> Result<(), Fail> {
    let whole = run_with(rt.alloc(), "mine", b"ab\nab\n", CALM)?;
    assert!(rt; !whole.out.bytes().is_empty());
    for words in [
        "mine --support 1",
        "mine --support=1.000000",
        "mine log.txt",
        "mine -",
    ] {
        let ran = run_with(rt.alloc(), words, b"ab\nab\n", CALM)?;
        assert_eq!(rt; ran.status, Status::Done);
        assert_eq!(rt; ran.out.bytes(), whole.out.bytes());
    }
    Ok(())
}

const ORDERED: &str = "case,activity,n\n1,a,10\n1,b,9\n1,c,-1\n";

/// Bytes as text come first to last as -1, 10, 9, and as numbers as -1, 9, 10.
#[test]
fn csv_logs_are_read_by_columns(rt: HostRuntime) -> Result<(), Fail> {
    let cases = [
        (
            "kb --format csv --order-column n",
            ORDERED,
            "           1            1            0            0            1 \"b\"\n",
        ),
        (
            "kb --format csv --order-column n --order-as number",
            ORDERED,
            "           1            1            0            0            1 \"a\"\n",
        ),
        (
            "kb --format csv",
            ORDERED,
            "           1            1            0            0            1 \"c\"\n",
        ),
        (
            "kb --format csv --case-column n --activity-column case",
            ORDERED,
            "           3            3            0            3            3 \"1\"\n",
        ),
        (
            "kb --format csv",
            "\u{feff}\u{feff}case,activity\n1,a\n",
            "           1            1            0            1            1 \"a\"\n",
        ),
    ];
    for (words, log, want) in cases {
        let ran = run_with(rt.alloc(), words, log.as_bytes(), CALM)?;
        assert_eq!(rt; ran.status, Status::Done);
        assert!(rt; has(&ran, want), "{words}");
    }
    Ok(())
}

/// One line of a refusal, cut where standard error fails.
#[test]
fn lines_are_cut_where_they_fail(rt: HostRuntime) -> Result<(), Fail> {
    let cut = Outside {
        lines: &[2],
        ..CALM
    };
    let ran = run_with(rt.alloc(), "mine", b"ab\n\xff\n", cut)?;
    assert_eq!(rt; ran.status, Status::BadLog);
    assert!(rt; ran.out.bytes().is_empty());
    assert_eq!(rt; ran.err.bytes(), b"minerful: ".as_slice());
    Ok(())
}
