use decl_base::Refusal;
use model_json::read_model;
use std::alloc::Global;
use std::test::Fail;
use template_core::{Constraint, Kind};

/// Texts, and what is refused of each.
const REFUSED: &[(&str, Refusal)] = &[
    ("{", Refusal::NotJson),
    ("[]", Refusal::ModelShape { at: 0 }),
    (
        r#"{"constraints":[],"tasks":[1]}"#,
        Refusal::ModelShape { at: 0 },
    ),
    (
        r#"{"constraints":[{"template":"Exactly2","parameters":[["a"]]}],"version":3}"#,
        Refusal::ModelShape { at: 0 },
    ),
    (
        r#"{"constraints":[{"template":"Init","parameters":[["a"]]},7]}"#,
        Refusal::ModelShape { at: 2 },
    ),
    (
        r#"{"constraints":[{"template":"Respond","parameters":[["a"],["b"]]}]}"#,
        Refusal::UnknownTemplate { at: 1 },
    ),
    (
        r#"{"constraints":[{"template":"Exactly2","parameters":[["a"]]}]}"#,
        Refusal::UnknownTemplate { at: 1 },
    ),
    (
        r#"{"constraints":[{"template":"Exactly0","parameters":[["a"]]}],"version":2}"#,
        Refusal::UnknownTemplate { at: 1 },
    ),
    (
        r#"{"constraints":[{"template":"Response","parameters":[["a"]]}]}"#,
        Refusal::Parameters { at: 1 },
    ),
    (
        r#"{"constraints":[{"template":"Response","parameters":[["a","b"],["b"]]}]}"#,
        Refusal::Parameters { at: 1 },
    ),
    (
        r#"{"constraints":[{"template":"Response","parameters":[["a"],["a"]]}]}"#,
        Refusal::SameParameter { at: 1 },
    ),
];

#[test]
fn texts_that_are_refused(rt: HostRuntime) -> Result<(), Fail> {
    for (text, refusal) in REFUSED {
        assert_eq!(rt;
            read_model(rt.alloc(), text.as_bytes()).err(),
            Some(*refusal)
        );
    }
    Ok(())
}

#[test]
fn texts_that_are_read(rt: HostRuntime) -> Result<(), Fail> {
    let text =
        r#"{"constraints":[{"template":"Response","parameters":[["a"],["b"]],"support":0.98},{"template":"CoExistence","parameters":[["b"],["a"]]},{"template":"Init","parameters":[["c"]]}],"tasks":["b"],"version":2.0}"#;
    let model = read_model(rt.alloc(), text.as_bytes())?;
    assert_eq!(rt; model.names().len(), 3);
    assert_eq!(rt; model.names().name(0), "b");
    assert_eq!(rt; model.names().name(2), "c");
    let response = Constraint {
        kind: Kind::Response,
        first: 1,
        second: 0,
    };
    let together = Constraint {
        kind: Kind::CoExistence,
        first: 0,
        second: 1,
    };
    let begins = Constraint {
        kind: Kind::Init,
        first: 2,
        second: 2,
    };
    assert_eq!(rt;
        model.constraints(),
        [response, together, begins].as_slice()
    );
    assert_eq!(rt;
        read_model(rt.alloc(), br#"{"constraints":[],"version":"x"}"#)?
            .names()
            .len(),
        0
    );
    Ok(())
}

#[test]
fn counted_template_that_is_read(rt: HostRuntime) -> Result<(), Fail> {
    let text = r#"{"constraints":[{"template":"Exactly2","parameters":[["a"]]}],"version":2}"#;
    let twice = Constraint {
        kind: Kind::Exactly { n: 2 },
        first: 0,
        second: 0,
    };
    assert_eq!(rt;
        read_model(rt.alloc(), text.as_bytes())?.constraints(),
        [twice].as_slice()
    );
    Ok(())
}

/// A model beside a member of so many lists, one within the other.
fn nested(alloc: Global, lists: u32) -> Result<Vec<u8>, Fail> {
    let mut text = b"{\"constraints\":[],\"x\":".to_vec(alloc)?;
    for bracket in [b'[', b']'] {
        for _ in 0..lists {
            text.push(bracket)?;
        }
    }
    text.push(b'}')?;
    Ok(text)
}

#[test]
fn members_that_are_read_past(rt: HostRuntime) -> Result<(), Fail> {
    let alloc = rt.alloc();
    assert_eq!(rt;
        read_model(alloc, &nested(alloc, 100)?)?.constraints().len(),
        0
    );
    assert_eq!(rt;
        read_model(alloc, &nested(alloc, 200)?).err(),
        Some(Refusal::NotJson)
    );
    Ok(())
}
