use decl_base::Refusal;
use minerful_words::Settings;
use std::alloc::Global;
use std::test::Fail;

/// What a line of words, each but the first after a blank, gives.
fn read(alloc: Global, line: &str) -> Result<Settings, Refusal> {
    let mut words = Vec::new(alloc);
    for word in line.split(' ') {
        words.push(String::from_str(alloc, word)?)?;
    }
    Settings::read(alloc, &words)
}

/// Lines, and the place of the fault of each.
const REFUSED: &[(&str, u32)] = &[
    ("", 0),
    ("sift", 0),
    ("mine --nosuch", 1),
    ("mine --help", 1),
    ("mine a b", 1),
    ("mine --support", 1),
    ("mine --support 1 --support 1", 1),
    ("mine --case-column -x", 1),
    ("mine --seed 1", 1),
    ("kb --support 1", 1),
    ("sample --repertoire 1", 1),
    ("check", 1),
    ("verify", 1),
    ("verify a b", 1),
    ("compare a", 1),
    ("compare a b c", 1),
    ("analyse", 1),
    ("analyse m --out cert", 1),
    ("monitor m --first 1", 1),
    ("check m --max-states 1", 1),
    ("gen a", 1),
    ("sample --traces 1", 1),
    ("mine --out x --format y", 2),
    ("check - - --format x", 2),
    ("kb --order-as date", 6),
    ("mine --support 1.1", 7),
    ("mine --support 0.1234567", 7),
    ("mine --max-states 0", 10),
    ("mine --max-states 65537", 10),
    ("mine --max-states +1", 10),
    ("mine --stage models", 11),
    ("monitor m --max-states 0", 10),
    ("mine --out text", 12),
    ("sample --seed 4294967296", 13),
    ("gen --traces 1048576 --length 1000", 14),
    ("gen --length 0", 15),
    ("gen --length 1001", 15),
    ("gen --letters 0", 16),
    ("gen --letters 27", 16),
    ("mine --repertoire 3", 19),
    ("mine --repertoire 01", 19),
    ("mine --on-limit go", 20),
    ("mine --on-limit go --repertoire 3", 19),
    ("mine --out cert --stage scores --on-limit go", 20),
    ("analyse m --first 21", 21),
    ("compare - - --max-states 65537", 10),
    ("check - -", 17),
    ("check -", 17),
    ("monitor -", 17),
    ("compare - -", 17),
    ("gen --traces 1048575 --length 1000", 18),
    ("gen --traces 32768 --length 512", 18),
    ("mine --out cert --stage consistent", 24),
    ("mine --stage scores --out cert", 24),
    ("mine --out cert --on-limit keep", 24),
    ("regex Response a b", 1),
    ("regex Respond", 22),
    ("regex Respond y", 22),
    ("regex Init b", 23),
    ("regex Response y", 23),
    (
        "regex Init aaaaaaaaaaaaaaaaaaaaaaaaaaaaaaaaaaaaaaaaaaaaaaaaaaaaaaaaaaaaaaaaa",
        23,
    ),
];

#[test]
fn lines_that_are_refused(rt: HostRuntime) -> Result<(), Fail> {
    for (line, at) in REFUSED {
        assert_eq!(rt;
            read(rt.alloc(), line).err(),
            Some(Refusal::Usage { at: *at }),
            "{line}"
        );
    }
    Ok(())
}

/// Lines, and how `Debug` writes the settings of each.
const TAKEN: &[(&str, &str)] = &[
    (
        "mine --on-limit keep --repertoire 2 --order-as number --stage consistent --confidence=1.000000 --support 0.5 --order-column n --format csv --max-states 0000000007 --out table a.csv",
        "Settings { command: Mine, model: Name { text: \"\" }, log: Name { text: \"a.csv\" }, format: Csv, columns: Columns { case: Name { text: \"case\" }, activity: Name { text: \"activity\" }, order: Some(Name { text: \"n\" }), order_as: Number }, thresholds: Thresholds { support: Threshold { millionths: 500000 }, confidence: Threshold { millionths: 1000000 }, interest: Threshold { millionths: 125000 } }, states: 7, stage: Consistent, out: Table, seed: 0, traces: 100, length: 10, letters: 4, repertoire: Second, keep: true, first: 3, word: None }",
    ),
    (
        "kb",
        "Settings { command: Kb, model: Name { text: \"\" }, log: Name { text: \"-\" }, format: Strings, columns: Columns { case: Name { text: \"case\" }, activity: Name { text: \"activity\" }, order: None, order_as: Text }, thresholds: Thresholds { support: Threshold { millionths: 950000 }, confidence: Threshold { millionths: 250000 }, interest: Threshold { millionths: 125000 } }, states: 16384, stage: Model, out: Json, seed: 0, traces: 100, length: 10, letters: 4, repertoire: First, keep: false, first: 3, word: None }",
    ),
    (
        "check --case-column c - b",
        "Settings { command: Check, model: Name { text: \"-\" }, log: Name { text: \"b\" }, format: Strings, columns: Columns { case: Name { text: \"c\" }, activity: Name { text: \"activity\" }, order: None, order_as: Text }, thresholds: Thresholds { support: Threshold { millionths: 950000 }, confidence: Threshold { millionths: 250000 }, interest: Threshold { millionths: 125000 } }, states: 16384, stage: Model, out: Json, seed: 0, traces: 100, length: 10, letters: 4, repertoire: First, keep: false, first: 3, word: None }",
    ),
    (
        "check m",
        "Settings { command: Check, model: Name { text: \"m\" }, log: Name { text: \"-\" }, format: Strings, columns: Columns { case: Name { text: \"case\" }, activity: Name { text: \"activity\" }, order: None, order_as: Text }, thresholds: Thresholds { support: Threshold { millionths: 950000 }, confidence: Threshold { millionths: 250000 }, interest: Threshold { millionths: 125000 } }, states: 16384, stage: Model, out: Json, seed: 0, traces: 100, length: 10, letters: 4, repertoire: First, keep: false, first: 3, word: None }",
    ),
    (
        "gen --letters 26 --traces 28679 --length 585",
        "Settings { command: Gen, model: Name { text: \"\" }, log: Name { text: \"-\" }, format: Strings, columns: Columns { case: Name { text: \"case\" }, activity: Name { text: \"activity\" }, order: None, order_as: Text }, thresholds: Thresholds { support: Threshold { millionths: 950000 }, confidence: Threshold { millionths: 250000 }, interest: Threshold { millionths: 125000 } }, states: 16384, stage: Model, out: Json, seed: 0, traces: 28679, length: 585, letters: 26, repertoire: First, keep: false, first: 3, word: None }",
    ),
    (
        "mine --out cert --on-limit stop",
        "Settings { command: Mine, model: Name { text: \"\" }, log: Name { text: \"-\" }, format: Strings, columns: Columns { case: Name { text: \"case\" }, activity: Name { text: \"activity\" }, order: None, order_as: Text }, thresholds: Thresholds { support: Threshold { millionths: 950000 }, confidence: Threshold { millionths: 250000 }, interest: Threshold { millionths: 125000 } }, states: 16384, stage: Model, out: Cert, seed: 0, traces: 100, length: 10, letters: 4, repertoire: First, keep: false, first: 3, word: None }",
    ),
    (
        "verify -",
        "Settings { command: Verify, model: Name { text: \"-\" }, log: Name { text: \"-\" }, format: Strings, columns: Columns { case: Name { text: \"case\" }, activity: Name { text: \"activity\" }, order: None, order_as: Text }, thresholds: Thresholds { support: Threshold { millionths: 950000 }, confidence: Threshold { millionths: 250000 }, interest: Threshold { millionths: 125000 } }, states: 16384, stage: Model, out: Json, seed: 0, traces: 100, length: 10, letters: 4, repertoire: First, keep: false, first: 3, word: None }",
    ),
    (
        "monitor --max-states 1 m",
        "Settings { command: Monitor, model: Name { text: \"m\" }, log: Name { text: \"-\" }, format: Strings, columns: Columns { case: Name { text: \"case\" }, activity: Name { text: \"activity\" }, order: None, order_as: Text }, thresholds: Thresholds { support: Threshold { millionths: 950000 }, confidence: Threshold { millionths: 250000 }, interest: Threshold { millionths: 125000 } }, states: 1, stage: Model, out: Json, seed: 0, traces: 100, length: 10, letters: 4, repertoire: First, keep: false, first: 3, word: None }",
    ),
    (
        "compare a -",
        "Settings { command: Compare, model: Name { text: \"a\" }, log: Name { text: \"-\" }, format: Strings, columns: Columns { case: Name { text: \"case\" }, activity: Name { text: \"activity\" }, order: None, order_as: Text }, thresholds: Thresholds { support: Threshold { millionths: 950000 }, confidence: Threshold { millionths: 250000 }, interest: Threshold { millionths: 125000 } }, states: 16384, stage: Model, out: Json, seed: 0, traces: 100, length: 10, letters: 4, repertoire: First, keep: false, first: 3, word: None }",
    ),
    (
        "analyse --first 20 - --max-states 65536",
        "Settings { command: Analyse, model: Name { text: \"-\" }, log: Name { text: \"-\" }, format: Strings, columns: Columns { case: Name { text: \"case\" }, activity: Name { text: \"activity\" }, order: None, order_as: Text }, thresholds: Thresholds { support: Threshold { millionths: 950000 }, confidence: Threshold { millionths: 250000 }, interest: Threshold { millionths: 125000 } }, states: 65536, stage: Model, out: Json, seed: 0, traces: 100, length: 10, letters: 4, repertoire: First, keep: false, first: 20, word: None }",
    ),
    (
        "regex Response abx",
        "Settings { command: Regex, model: Name { text: \"Response\" }, log: Name { text: \"-\" }, format: Strings, columns: Columns { case: Name { text: \"case\" }, activity: Name { text: \"activity\" }, order: None, order_as: Text }, thresholds: Thresholds { support: Threshold { millionths: 950000 }, confidence: Threshold { millionths: 250000 }, interest: Threshold { millionths: 125000 } }, states: 16384, stage: Model, out: Json, seed: 0, traces: 100, length: 10, letters: 4, repertoire: First, keep: false, first: 3, word: Some(Name { text: \"abx\" }) }",
    ),
    (
        "sample --seed 4294967295",
        "Settings { command: Sample, model: Name { text: \"\" }, log: Name { text: \"-\" }, format: Strings, columns: Columns { case: Name { text: \"case\" }, activity: Name { text: \"activity\" }, order: None, order_as: Text }, thresholds: Thresholds { support: Threshold { millionths: 950000 }, confidence: Threshold { millionths: 250000 }, interest: Threshold { millionths: 125000 } }, states: 16384, stage: Model, out: Json, seed: 4294967295, traces: 100, length: 10, letters: 4, repertoire: First, keep: false, first: 3, word: None }",
    ),
];

#[test]
fn lines_that_are_taken(rt: HostRuntime) -> Result<(), Fail> {
    for (line, shown) in TAKEN {
        let settings = read(rt.alloc(), line)?;
        let text = format!(in rt.alloc(); "{settings:?}")?;
        assert_eq!(rt; text.as_str(), *shown);
    }
    Ok(())
}

#[test]
fn no_word_is_no_command(rt: HostRuntime) -> Result<(), Fail> {
    let refusal = Settings::read(rt.alloc(), &[]).err();
    assert_eq!(rt; refusal, Some(Refusal::Usage { at: 0 }));
    Ok(())
}
