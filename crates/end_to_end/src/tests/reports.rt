//! Whole reports, each worked out by hand.
use super::{CALM, run_with};
use decl_base::Status;
use std::alloc::Global;
use std::test::Fail;

/// The names as they stand in a report.
const A: &str = "[[\"a\"]]";

const B: &str = "[[\"b\"]]";

const AB: &str = "[[\"a\"],[\"b\"]]";

const BA: &str = "[[\"b\"],[\"a\"]]";

/// The constraints of a template over these activities, one after the other, as a report lists them.
fn push_listed(text: &mut String, template: &str, parameters: &[&str]) -> Result<(), Fail> {
    for names in parameters {
        if !text.ends_with("[") {
            text.push_str(",")?;
        }
        text.push_str("{\"confidence\":[1,1],\"interest\":[1,1],\"parameters\":")?;
        text.push_str(names)?;
        text.push_str(",\"support\":[1,1],\"template\":\"")?;
        text.push_str(template)?;
        text.push_str("\"}")?;
    }
    Ok(())
}

/// A report that lists these, and ends so.
fn report(alloc: Global, listed: &[(&str, &[&str])], end: &str) -> Result<String, Fail> {
    let mut text = String::from_str(alloc, "{\"constraints\":[")?;
    for (template, parameters) in listed {
        push_listed(&mut text, template, parameters)?;
    }
    text.push_str(end)?;
    Ok(text)
}

/// Of the traces ab and ab all twenty stay, at a limit that their least automata just meet.
#[test]
fn twenty_stay(rt: HostRuntime) -> Result<(), Fail> {
    let want = report(
        rt.alloc(),
        &[
            ("Init", &[A]),
            ("End", &[B]),
            ("Participation", &[A, B]),
            ("AtMostOne", &[A, B]),
            ("ChainSuccession", &[AB]),
            ("AlternateSuccession", &[AB]),
            ("Succession", &[AB]),
            ("CoExistence", &[AB]),
            ("ChainResponse", &[AB]),
            ("AlternateResponse", &[AB]),
            ("Response", &[AB]),
            ("ChainPrecedence", &[AB]),
            ("AlternatePrecedence", &[AB]),
            ("Precedence", &[AB]),
            ("RespondedExistence", &[AB, BA]),
            ("NotSuccession", &[BA]),
            ("NotChainSuccession", &[BA]),
        ],
        "],\"dropped\":[],\"events\":4,\"example\":[\"a\",\"b\"],\"tasks\":[\"a\",\"b\"],\"traces\":2}\n",
    )?;
    let words = "mine --stage consistent --max-states 4";
    let ran = run_with(rt.alloc(), words, b"ab\nab\n", CALM)?;
    assert_eq!(rt; ran.status, Status::Done);
    assert_eq!(rt; ran.out.bytes(), want.as_str().as_bytes());
    Ok(())
}

/// Two cases that are told in turns, with a byte order mark and a quoted name.
pub(crate) const CASES: &str =
    "\u{feff}case,activity,time\n1,\"Register, new\",2024-01-01T09:00:00\n2,\"Register, new\",2024-01-01T09:05:00\n1,Check,2024-01-01T10:00:00\n1,Pay,2024-01-01T11:00:00\n2,Check,2024-01-01T12:00:00\n2,Pay,2024-01-01T13:00:00\n";

const C: &str = "[[\"Check\"]]";

const P: &str = "[[\"Pay\"]]";

const R: &str = "[[\"Register, new\"]]";

const CP: &str = "[[\"Check\"],[\"Pay\"]]";

const PC: &str = "[[\"Pay\"],[\"Check\"]]";

const CR: &str = "[[\"Check\"],[\"Register, new\"]]";

const RC: &str = "[[\"Register, new\"],[\"Check\"]]";

const PR: &str = "[[\"Pay\"],[\"Register, new\"]]";

const RP: &str = "[[\"Register, new\"],[\"Pay\"]]";

#[test]
fn forty_eight_are_candidates(rt: HostRuntime) -> Result<(), Fail> {
    let want = report(
        rt.alloc(),
        &[
            ("Init", &[R]),
            ("End", &[P]),
            ("Participation", &[C, P, R]),
            ("AtMostOne", &[C, P, R]),
            ("ChainSuccession", &[CP, RC]),
            ("AlternateSuccession", &[CP, RC, RP]),
            ("Succession", &[CP, RC, RP]),
            ("CoExistence", &[CP, CR, PR]),
            ("ChainResponse", &[CP, RC]),
            ("AlternateResponse", &[CP, RC, RP]),
            ("Response", &[CP, RC, RP]),
            ("ChainPrecedence", &[CP, RC]),
            ("AlternatePrecedence", &[CP, RC, RP]),
            ("Precedence", &[CP, RC, RP]),
            ("RespondedExistence", &[CP, CR, PC, PR, RC, RP]),
            ("NotSuccession", &[CR, PC, PR]),
            ("NotChainSuccession", &[CR, PC, PR, RP]),
        ],
        "],\"events\":6,\"tasks\":[\"Check\",\"Pay\",\"Register, new\"],\"traces\":2}\n",
    )?;
    for words in [
        "mine --stage scores --format csv",
        "mine --stage scores --format csv --order-column time",
    ] {
        let ran = run_with(rt.alloc(), words, CASES.as_bytes(), CALM)?;
        assert_eq!(rt; ran.status, Status::Done);
        assert_eq!(rt; ran.out.bytes(), want.as_str().as_bytes());
    }
    Ok(())
}

/// The model of the traces ab and ab.
const OF_AB: &str =
    "{\"constraints\":[{\"confidence\":[1,1],\"interest\":[1,1],\"parameters\":[[\"a\"]],\"support\":[1,1],\"template\":\"Init\",\"witness\":[\"b\"]},{\"confidence\":[1,1],\"interest\":[1,1],\"parameters\":[[\"b\"]],\"support\":[1,1],\"template\":\"End\",\"witness\":[\"a\"]},{\"confidence\":[1,1],\"interest\":[1,1],\"parameters\":[[\"a\"]],\"support\":[1,1],\"template\":\"AtMostOne\",\"witness\":[\"a\",\"a\",\"b\"]},{\"confidence\":[1,1],\"interest\":[1,1],\"parameters\":[[\"b\"]],\"support\":[1,1],\"template\":\"AtMostOne\",\"witness\":[\"a\",\"b\",\"b\"]}],\"dropped\":[{\"by\":{\"parameters\":[[\"a\"]],\"template\":\"Init\"},\"confidence\":[1,1],\"interest\":[1,1],\"parameters\":[[\"a\"]],\"support\":[1,1],\"template\":\"Participation\",\"why\":\"weaker\"},{\"by\":{\"parameters\":[[\"b\"]],\"template\":\"End\"},\"confidence\":[1,1],\"interest\":[1,1],\"parameters\":[[\"b\"]],\"support\":[1,1],\"template\":\"Participation\",\"why\":\"weaker\"},{\"confidence\":[1,1],\"interest\":[1,1],\"parameters\":[[\"a\"],[\"b\"]],\"support\":[1,1],\"template\":\"ChainSuccession\",\"why\":\"first-pass\"},{\"by\":{\"parameters\":[[\"a\"],[\"b\"]],\"template\":\"ChainSuccession\"},\"confidence\":[1,1],\"interest\":[1,1],\"parameters\":[[\"a\"],[\"b\"]],\"support\":[1,1],\"template\":\"AlternateSuccession\",\"why\":\"weaker\"},{\"by\":{\"parameters\":[[\"a\"],[\"b\"]],\"template\":\"ChainSuccession\"},\"confidence\":[1,1],\"interest\":[1,1],\"parameters\":[[\"a\"],[\"b\"]],\"support\":[1,1],\"template\":\"Succession\",\"why\":\"weaker\"},{\"by\":{\"parameters\":[[\"a\"],[\"b\"]],\"template\":\"ChainSuccession\"},\"confidence\":[1,1],\"interest\":[1,1],\"parameters\":[[\"a\"],[\"b\"]],\"support\":[1,1],\"template\":\"CoExistence\",\"why\":\"weaker\"},{\"by\":{\"parameters\":[[\"a\"],[\"b\"]],\"template\":\"ChainSuccession\"},\"confidence\":[1,1],\"interest\":[1,1],\"parameters\":[[\"a\"],[\"b\"]],\"support\":[1,1],\"template\":\"ChainResponse\",\"why\":\"weaker\"},{\"by\":{\"parameters\":[[\"a\"],[\"b\"]],\"template\":\"ChainSuccession\"},\"confidence\":[1,1],\"interest\":[1,1],\"parameters\":[[\"a\"],[\"b\"]],\"support\":[1,1],\"template\":\"AlternateResponse\",\"why\":\"weaker\"},{\"by\":{\"parameters\":[[\"a\"],[\"b\"]],\"template\":\"ChainSuccession\"},\"confidence\":[1,1],\"interest\":[1,1],\"parameters\":[[\"a\"],[\"b\"]],\"support\":[1,1],\"template\":\"Response\",\"why\":\"weaker\"},{\"by\":{\"parameters\":[[\"a\"],[\"b\"]],\"template\":\"ChainSuccession\"},\"confidence\":[1,1],\"interest\":[1,1],\"parameters\":[[\"a\"],[\"b\"]],\"support\":[1,1],\"template\":\"ChainPrecedence\",\"why\":\"weaker\"},{\"by\":{\"parameters\":[[\"a\"],[\"b\"]],\"template\":\"ChainSuccession\"},\"confidence\":[1,1],\"interest\":[1,1],\"parameters\":[[\"a\"],[\"b\"]],\"support\":[1,1],\"template\":\"AlternatePrecedence\",\"why\":\"weaker\"},{\"by\":{\"parameters\":[[\"a\"],[\"b\"]],\"template\":\"ChainSuccession\"},\"confidence\":[1,1],\"interest\":[1,1],\"parameters\":[[\"a\"],[\"b\"]],\"support\":[1,1],\"template\":\"Precedence\",\"why\":\"weaker\"},{\"by\":{\"parameters\":[[\"a\"],[\"b\"]],\"template\":\"ChainSuccession\"},\"confidence\":[1,1],\"interest\":[1,1],\"parameters\":[[\"a\"],[\"b\"]],\"support\":[1,1],\"template\":\"RespondedExistence\",\"why\":\"weaker\"},{\"by\":{\"parameters\":[[\"a\"],[\"b\"]],\"template\":\"ChainSuccession\"},\"confidence\":[1,1],\"interest\":[1,1],\"parameters\":[[\"b\"],[\"a\"]],\"support\":[1,1],\"template\":\"RespondedExistence\",\"why\":\"weaker\"},{\"confidence\":[1,1],\"interest\":[1,1],\"parameters\":[[\"b\"],[\"a\"]],\"support\":[1,1],\"template\":\"NotSuccession\",\"why\":\"first-pass\"},{\"by\":{\"parameters\":[[\"b\"],[\"a\"]],\"template\":\"NotSuccession\"},\"confidence\":[1,1],\"interest\":[1,1],\"parameters\":[[\"b\"],[\"a\"]],\"support\":[1,1],\"template\":\"NotChainSuccession\",\"why\":\"weaker\"}],\"events\":4,\"example\":[\"a\",\"b\"],\"tasks\":[\"a\",\"b\"],\"traces\":2}\n";

/// The model of the traces a and b, at support 1/2.
const OF_A_AND_B: &str =
    "{\"constraints\":[{\"confidence\":[1,1],\"interest\":[1,2],\"parameters\":[[\"a\"]],\"support\":[1,1],\"template\":\"AtMostOne\",\"witness\":[\"a\",\"a\"]},{\"confidence\":[1,1],\"interest\":[1,2],\"parameters\":[[\"a\"],[\"b\"]],\"support\":[1,1],\"template\":\"NotCoExistence\",\"witness\":[\"a\",\"b\"]},{\"confidence\":[1,2],\"interest\":[1,4],\"parameters\":[[\"a\"]],\"support\":[1,2],\"template\":\"Init\",\"witness\":[]}],\"dropped\":[{\"confidence\":[1,1],\"interest\":[1,2],\"parameters\":[[\"b\"]],\"support\":[1,1],\"template\":\"AtMostOne\",\"why\":\"second-pass\"},{\"by\":{\"parameters\":[[\"a\"],[\"b\"]],\"template\":\"NotCoExistence\"},\"confidence\":[1,1],\"interest\":[1,2],\"parameters\":[[\"a\"],[\"b\"]],\"support\":[1,1],\"template\":\"NotSuccession\",\"why\":\"weaker\"},{\"by\":{\"parameters\":[[\"a\"],[\"b\"]],\"template\":\"NotCoExistence\"},\"confidence\":[1,1],\"interest\":[1,2],\"parameters\":[[\"b\"],[\"a\"]],\"support\":[1,1],\"template\":\"NotSuccession\",\"why\":\"weaker\"},{\"by\":{\"parameters\":[[\"a\"],[\"b\"]],\"template\":\"NotCoExistence\"},\"confidence\":[1,1],\"interest\":[1,2],\"parameters\":[[\"a\"],[\"b\"]],\"support\":[1,1],\"template\":\"NotChainSuccession\",\"why\":\"weaker\"},{\"by\":{\"parameters\":[[\"a\"],[\"b\"]],\"template\":\"NotCoExistence\"},\"confidence\":[1,1],\"interest\":[1,2],\"parameters\":[[\"b\"],[\"a\"]],\"support\":[1,1],\"template\":\"NotChainSuccession\",\"why\":\"weaker\"},{\"confidence\":[1,2],\"interest\":[1,4],\"parameters\":[[\"b\"]],\"support\":[1,2],\"template\":\"Init\",\"why\":\"conflict\"},{\"confidence\":[1,2],\"interest\":[1,4],\"parameters\":[[\"a\"]],\"support\":[1,2],\"template\":\"End\",\"why\":\"first-pass\"},{\"confidence\":[1,2],\"interest\":[1,4],\"parameters\":[[\"b\"]],\"support\":[1,2],\"template\":\"End\",\"why\":\"conflict\"},{\"by\":{\"parameters\":[[\"a\"]],\"template\":\"Init\"},\"confidence\":[1,2],\"interest\":[1,4],\"parameters\":[[\"a\"]],\"support\":[1,2],\"template\":\"Participation\",\"why\":\"weaker\"},{\"confidence\":[1,2],\"interest\":[1,4],\"parameters\":[[\"b\"]],\"support\":[1,2],\"template\":\"Participation\",\"why\":\"conflict\"}],\"events\":2,\"example\":[\"a\"],\"tasks\":[\"a\",\"b\"],\"traces\":2}\n";

/// The table of ab and ab where each list with five states is too wide.
const WITHIN_FOUR: &str =
    "     support   confidence     interest constraint\n         1/1          1/1          1/1 Init(\"a\") -\n         1/1          1/1          1/1 End(\"b\") [\"a\"]\n         1/1          1/1          1/1 AtMostOne(\"a\") [\"a\",\"a\",\"b\"]\n         1/1          1/1          1/1 AtMostOne(\"b\") [\"a\",\"b\",\"b\"]\n";

/// The model of the trace a.
const OF_A: &str =
    "{\"constraints\":[{\"confidence\":[1,1],\"interest\":[1,1],\"parameters\":[[\"a\"]],\"support\":[1,1],\"template\":\"Init\",\"witness\":[]},{\"confidence\":[1,1],\"interest\":[1,1],\"parameters\":[[\"a\"]],\"support\":[1,1],\"template\":\"AtMostOne\",\"witness\":[\"a\",\"a\"]}],\"dropped\":[{\"confidence\":[1,1],\"interest\":[1,1],\"parameters\":[[\"a\"]],\"support\":[1,1],\"template\":\"End\",\"why\":\"first-pass\"},{\"by\":{\"parameters\":[[\"a\"]],\"template\":\"Init\"},\"confidence\":[1,1],\"interest\":[1,1],\"parameters\":[[\"a\"]],\"support\":[1,1],\"template\":\"Participation\",\"why\":\"weaker\"}],\"events\":1,\"example\":[\"a\"],\"tasks\":[\"a\"],\"traces\":1}\n";

/// The model of the traces aa and aa, of the second repertoire.
const OF_AA: &str =
    "{\"constraints\":[{\"confidence\":[1,1],\"interest\":[1,1],\"parameters\":[[\"a\"]],\"support\":[1,1],\"template\":\"Exactly2\",\"witness\":[]}],\"dropped\":[{\"confidence\":[1,1],\"interest\":[1,1],\"parameters\":[[\"a\"]],\"support\":[1,1],\"template\":\"Init\",\"why\":\"second-pass\"},{\"confidence\":[1,1],\"interest\":[1,1],\"parameters\":[[\"a\"]],\"support\":[1,1],\"template\":\"End\",\"why\":\"first-pass\"},{\"by\":{\"parameters\":[[\"a\"]],\"template\":\"Init\"},\"confidence\":[1,1],\"interest\":[1,1],\"parameters\":[[\"a\"]],\"support\":[1,1],\"template\":\"Participation\",\"why\":\"weaker\"},{\"by\":{\"parameters\":[[\"a\"]],\"template\":\"Exactly2\"},\"confidence\":[1,1],\"interest\":[1,1],\"parameters\":[[\"a\"]],\"support\":[1,1],\"template\":\"AtLeast2\",\"why\":\"weaker\"},{\"by\":{\"parameters\":[[\"a\"]],\"template\":\"Exactly2\"},\"confidence\":[1,1],\"interest\":[1,1],\"parameters\":[[\"a\"]],\"support\":[1,1],\"template\":\"AtMost2\",\"why\":\"weaker\"},{\"by\":{\"parameters\":[[\"a\"]],\"template\":\"Exactly2\"},\"confidence\":[1,1],\"interest\":[1,1],\"parameters\":[[\"a\"]],\"support\":[1,1],\"template\":\"AtMost3\",\"why\":\"weaker\"},{\"by\":{\"parameters\":[[\"a\"]],\"template\":\"Exactly2\"},\"confidence\":[1,1],\"interest\":[1,1],\"parameters\":[[\"a\"]],\"support\":[1,1],\"template\":\"AtMost4\",\"why\":\"weaker\"},{\"by\":{\"parameters\":[[\"a\"]],\"template\":\"Exactly2\"},\"confidence\":[1,1],\"interest\":[1,1],\"parameters\":[[\"a\"]],\"support\":[1,1],\"template\":\"AtMost5\",\"why\":\"weaker\"},{\"by\":{\"parameters\":[[\"a\"]],\"template\":\"Exactly2\"},\"confidence\":[1,1],\"interest\":[1,1],\"parameters\":[[\"a\"]],\"support\":[1,1],\"template\":\"AtMost6\",\"why\":\"weaker\"},{\"by\":{\"parameters\":[[\"a\"]],\"template\":\"Exactly2\"},\"confidence\":[1,1],\"interest\":[1,1],\"parameters\":[[\"a\"]],\"support\":[1,1],\"template\":\"AtMost7\",\"why\":\"weaker\"},{\"by\":{\"parameters\":[[\"a\"]],\"template\":\"Exactly2\"},\"confidence\":[1,1],\"interest\":[1,1],\"parameters\":[[\"a\"]],\"support\":[1,1],\"template\":\"AtMost8\",\"why\":\"weaker\"},{\"by\":{\"parameters\":[[\"a\"]],\"template\":\"Exactly2\"},\"confidence\":[1,1],\"interest\":[1,1],\"parameters\":[[\"a\"]],\"support\":[1,1],\"template\":\"AtMost9\",\"why\":\"weaker\"}],\"events\":4,\"example\":[\"a\",\"a\"],\"tasks\":[\"a\"],\"traces\":2,\"version\":2}\n";

/// The model of the trace é.
const OF_E_ACUTE: &str =
    "{\"constraints\":[{\"confidence\":[1,1],\"interest\":[1,1],\"parameters\":[[\"é\"]],\"support\":[1,1],\"template\":\"Init\",\"witness\":[]},{\"confidence\":[1,1],\"interest\":[1,1],\"parameters\":[[\"é\"]],\"support\":[1,1],\"template\":\"AtMostOne\",\"witness\":[\"é\",\"é\"]}],\"dropped\":[{\"confidence\":[1,1],\"interest\":[1,1],\"parameters\":[[\"é\"]],\"support\":[1,1],\"template\":\"End\",\"why\":\"first-pass\"},{\"by\":{\"parameters\":[[\"é\"]],\"template\":\"Init\"},\"confidence\":[1,1],\"interest\":[1,1],\"parameters\":[[\"é\"]],\"support\":[1,1],\"template\":\"Participation\",\"why\":\"weaker\"}],\"events\":1,\"example\":[\"é\"],\"tasks\":[\"é\"],\"traces\":1}\n";

const LOOSE: &str = "mine --support 0.5 --confidence 0 --interest 0";

const LOOSE_CSV: &str = "mine --support 0.5 --confidence 0 --interest 0 --format csv";

#[test]
fn models_are_printed(rt: HostRuntime) -> Result<(), Fail> {
    let cases = [
        ("mine", "ab\nab\n", OF_AB),
        ("mine --stage model --max-states 5", "ab\nab\n", OF_AB),
        ("mine", "ab\r\nab", OF_AB),
        ("mine --max-states 5 --on-limit keep", "ab\nab\n", OF_AB),
        (
            "mine --out table --max-states 4 --on-limit keep",
            "ab\nab\n",
            WITHIN_FOUR,
        ),
        (LOOSE, "a\nb\n", OF_A_AND_B),
        (LOOSE, "b\na\n", OF_A_AND_B),
        (LOOSE_CSV, "case,activity\n1,a\n2,b\n", OF_A_AND_B),
        ("mine", "a\n", OF_A),
        ("mine --repertoire 2", "aa\naa\n", OF_AA),
        ("mine", "é\n", OF_E_ACUTE),
    ];
    for (words, log, want) in cases {
        let ran = run_with(rt.alloc(), words, log.as_bytes(), CALM)?;
        assert_eq!(rt; ran.status, Status::Done);
        assert_eq!(rt; ran.out.bytes(), want.as_bytes());
        assert!(rt; ran.err.bytes().is_empty());
    }
    Ok(())
}
