//! What no clause says.
ghost use Rattle.event_log.specs.Within.{CanCount};

use csv_log::read_csv;
use decl_base::{Limits, Name, Refusal};
use event_log::Alphabet;
use log_columns::{Columns, OrderAs};
use std::alloc::Global;
use std::test::Fail;

/// The traces of the log, each ended by a semicolon, each name by a bar.
fn traces(
    alloc: Global,
    text: &[u8],
    order: Option<&str>,
    order_as: OrderAs,
    limits: &Limits,
) -> Result<String, Refusal>
    requires { CanCount limits.now }
{
    let order = match order {
        Some(name) => Some(Name::of(alloc, name)?),
        None => None,
    };
    let columns = Columns {
        case: Name::of(alloc, "case")?,
        activity: Name::of(alloc, "activity")?,
        order,
        order_as,
    };
    let (alphabet, log) = read_csv(alloc, text, &columns, limits)?;
    let mut written = String::new(alloc);
    for place in 0..log.traces() {
        write_trace(&mut written, &alphabet, log.trace(place))?;
    }
    Ok(written)
}

fn write_trace(written: &mut String, alphabet: &Alphabet, trace: &[u32]) -> Result<(), Refusal> {
    for id in trace {
        if *id < alphabet.len() {
            written.push_str(alphabet.name(*id))?;
            written.push_str("|")?;
        }
    }
    written.push_str(";")?;
    Ok(())
}

const ORDERS: &[u8] = b"\xEF\xBB\xBFcase,activity,time
1,\"Register, new\",2024-01-01T09:00:00
2,\"Register, new\",2024-01-01T09:05:00
1,Check,2024-01-01T10:00:00
1,Pay,2024-01-01T11:00:00
2,Check,2024-01-01T12:00:00
2,Pay,2024-01-01T13:00:00
";

const IN_ORDER: &str = "Register, new|Check|Pay|;Register, new|Check|Pay|;";

/// Texts, the column that orders each and how, and the traces of its log.
const LOGS: &[(&[u8], Option<&str>, OrderAs, &str)] = &[
    (ORDERS, None, OrderAs::Text, IN_ORDER),
    (ORDERS, Some("time"), OrderAs::Text, IN_ORDER),
    (
        b"case,activity,activity\n1,a,b,x",
        None,
        OrderAs::Text,
        "a|;",
    ),
    (
        b"case,activity,n\n1,a,10\n1,b,9\n1,c,-1\n",
        Some("n"),
        OrderAs::Text,
        "c|a|b|;",
    ),
    (
        b"case,activity,n\n1,a,10\n1,b,9\n1,c,-1\n",
        Some("n"),
        OrderAs::Number,
        "c|b|a|;",
    ),
    (
        b"case,activity,n\n1,a,1\n2,b,0\n1,c,0\n1,d,1\n1,e,01\n",
        Some("n"),
        OrderAs::Number,
        "c|a|d|e|;b|;",
    ),
    (
        b"case,activity,n\n1,a,999999999999999999\n1,b,-0\n",
        Some("n"),
        OrderAs::Number,
        "b|a|;",
    ),
    (b"case,activity\n,\n,a\n", None, OrderAs::Text, "|a|;"),
    (
        b"case,activity\n1,\"a\nb\"\n",
        None,
        OrderAs::Text,
        "a\nb|;",
    ),
    (
        b"case,activity\r\n1,a\r\n\r\n\n1,b\r\n",
        None,
        OrderAs::Text,
        "a|b|;",
    ),
    (
        b"case,activity\n1,\"a\n2,b\n",
        None,
        OrderAs::Text,
        "a\n2,b\n|;",
    ),
    (b"case,activity\n", None, OrderAs::Text, ""),
    (
        b"b,case,activity\nz,2,a\nz,1,b\nz,2,c\n",
        None,
        OrderAs::Text,
        "a|c|;b|;",
    ),
    (
        b"case,activity,n\n1,b,x\n1,a,x\n1,c,w\n",
        Some("n"),
        OrderAs::Text,
        "c|b|a|;",
    ),
    (
        b"\xEF\xBB\xBF\xEF\xBB\xBFcase,activity\n1,a\n",
        None,
        OrderAs::Text,
        "a|;",
    ),
];

#[test]
fn logs_of_texts(rt: HostRuntime) -> Result<(), Fail> {
    for (text, order, order_as, expected) in LOGS {
        let written = traces(rt.alloc(), text, *order, *order_as, &Limits::standard())?;
        assert_eq!(rt; written.as_str(), *expected);
    }
    Ok(())
}

/// Texts, the column that orders each by numbers, and what is refused of it.
const REFUSED: &[(&[u8], Option<&str>, Refusal)] = &[
    (b"", None, Refusal::Header { which: 1 }),
    (b"case", None, Refusal::Header { which: 2 }),
    (b"case,activity\n", Some("n"), Refusal::Header { which: 3 }),
    (
        b"case,activity\n1,a\n2\n",
        None,
        Refusal::ShortRow { row: 3 },
    ),
    (
        b"case,activity\n\xFF,a\n",
        None,
        Refusal::RowText { row: 2 },
    ),
    (
        b"case,activity\n1,\xFF\n",
        None,
        Refusal::RowText { row: 2 },
    ),
    (
        b"case,activity\n1,a\n1,a\n1,a\n1,a\n",
        None,
        Refusal::Events { limit: 3 },
    ),
    (
        b"case,activity\n1,a\n2,a\n3,a\n",
        None,
        Refusal::Traces { limit: 2 },
    ),
    (
        b"case,activity\n1,a\n1,b\n1,c\n",
        None,
        Refusal::Activities { limit: 2 },
    ),
    (
        b"\xEF\xBB\xBF\xEF\xBB\xBF\xEF\xBB\xBFcase,activity\n1,a\n",
        None,
        Refusal::Header { which: 1 },
    ),
    (
        b"case,activity,n\n1,a,x1\n",
        Some("n"),
        Refusal::RowOrder { row: 2 },
    ),
    (
        b"case,activity,n\n1,a,1\n1,a,1234567890123456789\n",
        Some("n"),
        Refusal::RowOrder { row: 3 },
    ),
    (
        b"case,activity,n\n1,a,-\n",
        Some("n"),
        Refusal::RowOrder { row: 2 },
    ),
    (
        b"case,activity,n\n1,a,+1\n",
        Some("n"),
        Refusal::RowOrder { row: 2 },
    ),
    (
        b"case,activity,n\n1,a,\n",
        Some("n"),
        Refusal::RowOrder { row: 2 },
    ),
];

#[test]
fn texts_without_a_log(rt: HostRuntime) -> Result<(), Fail> {
    let limits = Limits {
        events: 3,
        traces: 2,
        activities: 2,
        ..Limits::standard()
    };
    for (text, order, refusal) in REFUSED {
        let read = traces(rt.alloc(), text, *order, OrderAs::Number, &limits);
        assert_eq!(rt; read.err(), Some(*refusal));
    }
    Ok(())
}
