use crate::analysed_text;
use event_log::Alphabet;
use model_compare::analyse;
use std::test::Fail;
use template_core::{Constraint, Kind};

/// A model over two names in which the second never stands and the last constraint follows from the first.
#[test]
fn analysed_model(rt: HostRuntime) -> Result<(), Fail> {
    let mut names = Alphabet::new(rt.alloc(), 1_000);
    names.add("a")?;
    names.add("b")?;
    let list = [
        Constraint {
            kind: Kind::Init,
            first: 0,
            second: 0,
        },
        Constraint {
            kind: Kind::NotCoExistence,
            first: 0,
            second: 1,
        },
        Constraint {
            kind: Kind::Participation,
            first: 0,
            second: 0,
        },
    ];
    let analysed = analyse(rt.alloc(), &list, 3, 100, 3)?;
    let text = analysed_text(rt.alloc(), &names, &analysed)?;
    let expected =
        "accepts [\"a\"]\ndead [\"b\"]\nredundant [3]\ntrace [\"a\"]\ntrace [\"a\",\"a\"]\ntrace [\"a\",null]\n";
    assert_eq!(rt; text.as_slice(), expected.as_bytes());
    Ok(())
}
