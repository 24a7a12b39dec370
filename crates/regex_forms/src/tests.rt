//! The texts of the forms, and words that they match or don't, worked out by hand.

use crate::{Form, form_of, matches, print};
use decl_base::Refusal;
use std::alloc::Global;
use std::test::Fail;
use template_core::{Class, Kind};

const A: Class = Class::First;

const B: Class = Class::Second;

const X: Class = Class::Other;

/// The text of the template's form.
fn printed(alloc: Global, kind: Kind) -> Result<Vec<u8>, Refusal> {
    print(alloc, &form_of(alloc, kind)?)
}

#[test]
fn forms_have_the_texts_of_the_table(rt: HostRuntime) -> Result<(), Fail> {
    for (kind, text) in [
        (Kind::Init, "a[ax]*"),
        (Kind::End, "[ax]*a"),
        (Kind::Participation, "x*a[ax]*"),
        (Kind::AtMostOne, "x*|x*ax*"),
        (Kind::ChainSuccession, "(x|ab)*"),
        (Kind::AlternateSuccession, "(x|ax*b)*"),
        (Kind::Succession, "x*|x*a[abx]*bx*"),
        (
            Kind::CoExistence,
            "x*|[abx]*a[abx]*b[abx]*|[abx]*b[abx]*a[abx]*",
        ),
        (Kind::ChainResponse, "([bx]|ab)*"),
        (Kind::AlternateResponse, "([bx]|ax*b)*"),
        (Kind::Response, "([bx]|a[ax]*b)*"),
        (Kind::ChainPrecedence, "([ax]|ab)*"),
        (Kind::AlternatePrecedence, "(x*a[ax]*b)*[ax]*"),
        (Kind::Precedence, "x*|x*a[abx]*"),
        (Kind::RespondedExistence, "[bx]*|[abx]*b[abx]*"),
        (Kind::NotCoExistence, "[ax]*|[bx]*"),
        (Kind::NotSuccession, "[bx]*[ax]*"),
        (Kind::NotChainSuccession, "([bx]|aa*x)*a*"),
        (Kind::NotRespondedExistence, "[ax]*|[bx]*"),
        (Kind::NotResponse, "[bx]*[ax]*"),
        (Kind::NotPrecedence, "[bx]*[ax]*"),
        (Kind::NotChainResponse, "([bx]|aa*x)*a*"),
        (Kind::NotChainPrecedence, "([bx]|aa*x)*a*"),
    ] {
        assert_eq!(rt;
            printed(rt.alloc(), kind)?.as_slice(),
            text.as_bytes(),
            "{kind:?}"
        );
    }
    Ok(())
}

#[test]
fn counted_forms_have_the_texts_of_the_table(rt: HostRuntime) -> Result<(), Fail> {
    for (n, exactly, at_least, at_most) in [
        (1, "x*ax*", "x*a[ax]*", "x*(ax*)?"),
        (2, "x*ax*ax*", "x*ax*a[ax]*", "x*(ax*)?(ax*)?"),
        (3, "x*ax*ax*ax*", "x*ax*ax*a[ax]*", "x*(ax*)?(ax*)?(ax*)?"),
        (
            4,
            "x*ax*ax*ax*ax*",
            "x*ax*ax*ax*a[ax]*",
            "x*(ax*)?(ax*)?(ax*)?(ax*)?",
        ),
        (
            5,
            "x*ax*ax*ax*ax*ax*",
            "x*ax*ax*ax*ax*a[ax]*",
            "x*(ax*)?(ax*)?(ax*)?(ax*)?(ax*)?",
        ),
        (
            6,
            "x*ax*ax*ax*ax*ax*ax*",
            "x*ax*ax*ax*ax*ax*a[ax]*",
            "x*(ax*)?(ax*)?(ax*)?(ax*)?(ax*)?(ax*)?",
        ),
        (
            7,
            "x*ax*ax*ax*ax*ax*ax*ax*",
            "x*ax*ax*ax*ax*ax*ax*a[ax]*",
            "x*(ax*)?(ax*)?(ax*)?(ax*)?(ax*)?(ax*)?(ax*)?",
        ),
        (
            8,
            "x*ax*ax*ax*ax*ax*ax*ax*ax*",
            "x*ax*ax*ax*ax*ax*ax*ax*a[ax]*",
            "x*(ax*)?(ax*)?(ax*)?(ax*)?(ax*)?(ax*)?(ax*)?(ax*)?",
        ),
        (
            9,
            "x*ax*ax*ax*ax*ax*ax*ax*ax*ax*",
            "x*ax*ax*ax*ax*ax*ax*ax*ax*a[ax]*",
            "x*(ax*)?(ax*)?(ax*)?(ax*)?(ax*)?(ax*)?(ax*)?(ax*)?(ax*)?",
        ),
    ] {
        for (kind, text) in [
            (Kind::Exactly { n }, exactly),
            (Kind::AtLeast { n }, at_least),
            (Kind::AtMost { n }, at_most),
        ] {
            assert_eq!(rt;
                printed(rt.alloc(), kind)?.as_slice(),
                text.as_bytes(),
                "{kind:?}"
            );
        }
    }
    Ok(())
}

/// Whether the template's form matches the word.
fn says(alloc: Global, kind: Kind, word: &[Class]) -> Result<bool, Refusal> {
    matches(alloc, &form_of(alloc, kind)?, word)
}

#[test]
fn forms_match_what_keeps_the_template(rt: HostRuntime) -> Result<(), Fail> {
    let alloc = rt.alloc();
    assert!(rt; says(alloc, Kind::Response, &[A, A, B])?);
    assert!(rt; !says(alloc, Kind::Response, &[B, A])?);
    assert!(rt; says(alloc, Kind::Response, &[])?);
    assert!(rt; says(alloc, Kind::Init, &[A, X])? && !says(alloc, Kind::Init, &[X, A])?);
    assert!(rt; !says(alloc, Kind::Participation, &[])?);
    assert!(rt; says(alloc, Kind::AlternatePrecedence, &[A, X, B, A, B, X])?);
    assert!(rt; !says(alloc, Kind::AlternatePrecedence, &[A, B, B])?);
    assert!(rt; says(alloc, Kind::CoExistence, &[B, X, B, A])?);
    assert!(rt; !says(alloc, Kind::CoExistence, &[B, X, B])?);
    assert!(rt; says(alloc, Kind::NotChainSuccession, &[A, A, X, B, A])?);
    assert!(rt; !says(alloc, Kind::NotChainSuccession, &[X, A, B])?);
    assert!(rt; says(alloc, Kind::AtMost { n: 2 }, &[X, A, X, X, A])?);
    assert!(rt; !says(alloc, Kind::AtMost { n: 2 }, &[A, X, A, A])?);
    assert!(rt; says(alloc, Kind::AtLeast { n: 2 }, &[X, A, A, X, A])?);
    assert!(rt; !says(alloc, Kind::AtLeast { n: 2 }, &[X, A, X])?);
    assert!(rt;
        says(alloc, Kind::Exactly { n: 1 }, &[X, A, X])?
            && !says(alloc, Kind::Exactly { n: 1 }, &[])?
    );
    assert!(rt; !says(alloc, Kind::Exactly { n: 1 }, &[X, A, A])?);
    Ok(())
}

/// A set of the classes.
fn set(first: bool, second: bool, other: bool) -> Form {
    Form::Set {
        first,
        second,
        other,
    }
}

#[test]
fn marks_of_the_text(rt: HostRuntime) -> Result<(), Fail> {
    let alloc = rt.alloc();
    // Sets of no class and of two, an Any among parts, and a Star of a Star.
    let either = Form::Any(vec![in alloc; set(false, false, false), set(true, true, false)]?);
    let b = Form::Star(Box::new(alloc, set(false, true, false))?);
    let again = Form::Star(Box::new(alloc, b)?);
    let form = Form::Then(vec![in alloc; either, again, Form::Then(Vec::new(alloc))]?);
    assert_eq!(rt;
        print(alloc, &form)?.as_slice(),
        b"([]|[ab])(b*)*".as_slice()
    );
    assert!(rt; matches(alloc, &form, &[A, B, B])? && !matches(alloc, &form, &[B, A])?);
    Ok(())
}
