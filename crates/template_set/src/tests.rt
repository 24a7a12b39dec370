ghost use Rattle.std.specs.Prelude.{◌<◌};
ghost use Rattle.template_core.specs.Constraints.{IsTemplate};
ghost use Rattle.template_core.specs.Tables.{IsTable};

use crate::{arity, keeps, kind_of, kinds, name, place_activated, place_holds, stronger, table_of};
use template_core::{Class, Constraint, Kind, Table};

/// Whether the table accepts the word whose classes are the digits of a number to the base three, from the least one on.
fn accepts(table: &Table, number: u32, length: u32) -> bool
    requires { IsTable table.now }
{
    let mut state = table.start;
    let mut rest = number;
    for _ in 0..length {
        let class = match rest % 3 {
            0 => Class::First,
            1 => Class::Second,
            _ => Class::Other,
        };
        state = table.step(state, class);
        rest /= 3;
    }
    table.accepts_at(state)
}

/// The words of up to five classes that a template's table accepts: how many, and the sum of their numbers.
fn accepted(kind: Kind) -> (u32, u32)
    requires { IsTemplate kind }
{
    let table = table_of(kind);
    let mut count: u32 = 0;
    let mut sum: u32 = 0;
    for (length, words) in [(0, 1), (1, 3), (2, 9), (3, 27), (4, 81), (5, 243)] {
        for number in 0..words {
            if accepts(&table, number, length) {
                count = count.wrapping_add(1);
                sum = sum.wrapping_add(number);
            }
        }
    }
    (count, sum)
}

/// Against all words of up to five events that keep the template, by the definition.
#[test]
fn tables_accept_the_words_that_keep(rt: HostRuntime) {
    for (name, count, sum) in [
        ("Init", 121, 10890),
        ("End", 121, 3630),
        ("Participation", 301, 26082),
        ("AtMostOne", 192, 20175),
        ("ChainSuccession", 20, 1752),
        ("AlternateSuccession", 32, 3278),
        ("Succession", 88, 9787),
        ("CoExistence", 250, 22164),
        ("ChainResponse", 119, 13131),
        ("AlternateResponse", 144, 16392),
        ("Response", 185, 20847),
        ("ChainPrecedence", 119, 9281),
        ("AlternatePrecedence", 144, 12044),
        ("Precedence", 185, 16422),
        ("RespondedExistence", 307, 28757),
        ("NotCoExistence", 120, 11227),
        ("NotSuccession", 192, 16314),
        ("NotChainSuccession", 232, 20928),
        ("Exactly2", 111, 9471),
        ("AtLeast4", 12, 363),
        ("AtMost2", 303, 29646),
        ("NotRespondedExistence", 120, 11227),
        ("NotResponse", 192, 16314),
        ("NotPrecedence", 192, 16314),
        ("NotChainResponse", 232, 20928),
        ("NotChainPrecedence", 232, 20928),
    ] {
        let found = match kind_of(name) {
            Some(kind) => accepted(kind),
            None => (0, 0),
        };
        assert_eq!(rt; found, (count, sum), "{name}");
    }
}

/// Nine events of the activity are kept, and ten are not.
#[test]
fn the_longest_table_counts_to_ten(rt: HostRuntime) {
    let table = table_of(Kind::AtMost { n: 9 });
    assert_eq!(rt; table.states, 11);
    assert!(rt; accepts(&table, 0, 9));
    assert!(rt; !accepts(&table, 0, 10));
}

/// An a, an a and then a b: two a's respond to one b, which does for Response alone.
#[test]
fn alternate_response_is_told_from_response(rt: HostRuntime) {
    let number = 9;
    assert!(rt; !accepts(&table_of(Kind::AlternateResponse), number, 3));
    assert!(rt; accepts(&table_of(Kind::Response), number, 3));
}

#[test]
fn names_and_arities(rt: HostRuntime) {
    let mut two: u32 = 0;
    for kind in kinds() {
        assert_eq!(rt; kind_of(name(kind)), Some(kind));
        if arity(kind) == 2 {
            two = two.wrapping_add(1);
        }
    }
    assert_eq!(rt; two, 19);
    for text in [
        "participation",
        "Response ",
        "",
        "AtLeast",
        "Exactly0",
        "AtLeast10",
        "exactly2",
    ] {
        assert_eq!(rt; kind_of(text), None, "{text}");
    }
}

fn over(kind: Kind, first: u32, second: u32) -> Constraint {
    Constraint {
        kind,
        first,
        second,
    }
}

/// How many constraints over 0 and 1, and how many over 1 and 0, the hierarchy puts below one over 0 and 1.
fn below(kind: Kind) -> (u32, u32) {
    let above = over(kind, 0, 1);
    let mut counts: (u32, u32) = (0, 0);
    for kind in kinds() {
        if stronger(&above, &over(kind, 0, 1)) {
            counts.0 = counts.0.wrapping_add(1);
        }
        if stronger(&above, &over(kind, 1, 0)) {
            counts.1 = counts.1.wrapping_add(1);
        }
    }
    counts
}

#[test]
fn how_many_stand_below(rt: HostRuntime) {
    for (kind, counts) in [
        (Kind::Participation, (0, 0)),
        (Kind::AtMostOne, (8, 0)),
        (Kind::ChainSuccession, (10, 2)),
        (Kind::AlternateSuccession, (7, 2)),
        (Kind::Succession, (4, 2)),
        (Kind::CoExistence, (1, 1)),
        (Kind::ChainResponse, (3, 0)),
        (Kind::AlternateResponse, (2, 0)),
        (Kind::Response, (1, 0)),
        (Kind::ChainPrecedence, (2, 1)),
        (Kind::AlternatePrecedence, (1, 1)),
        (Kind::Precedence, (0, 1)),
        (Kind::RespondedExistence, (0, 0)),
        (Kind::NotCoExistence, (7, 7)),
        (Kind::NotSuccession, (5, 0)),
        (Kind::NotChainSuccession, (2, 0)),
        (Kind::Exactly { n: 1 }, (12, 0)),
        (Kind::Exactly { n: 3 }, (11, 0)),
        (Kind::AtLeast { n: 3 }, (3, 0)),
        (Kind::AtMost { n: 3 }, (6, 0)),
        (Kind::AtMost { n: 9 }, (0, 0)),
        (Kind::NotRespondedExistence, (2, 2)),
        (Kind::NotResponse, (1, 0)),
        (Kind::NotPrecedence, (1, 0)),
        (Kind::NotChainResponse, (0, 0)),
    ] {
        assert_eq!(rt; below(kind), counts, "{kind:?}");
    }
}

/// Which places of the trace 0 1 0 are activated, and which hold: its three events, and the whole trace.
#[test]
fn places_of_a_trace(rt: HostRuntime) {
    let trace = [0, 1, 0];
    for (constraint, activated, holding) in [
        (
            over(Kind::Response, 0, 1),
            [true, false, true, false],
            [true, true, false, true],
        ),
        (
            over(Kind::Precedence, 0, 1),
            [false, true, false, false],
            [true, true, true, true],
        ),
        (
            over(Kind::Init, 0, 0),
            [false, false, false, true],
            [true, true, true, true],
        ),
        (
            over(Kind::AtMostOne, 0, 0),
            [false, false, false, true],
            [true, true, true, false],
        ),
        (
            over(Kind::Exactly { n: 2 }, 0, 0),
            [false, false, false, true],
            [true, true, true, true],
        ),
        (
            over(Kind::NotChainResponse, 0, 1),
            [true, false, true, false],
            [false, true, true, true],
        ),
        (
            over(Kind::NotPrecedence, 0, 1),
            [false, true, false, false],
            [true, false, true, true],
        ),
    ] {
        for place in 0..4 {
            assert_eq!(rt;
                place_activated(&constraint, &trace, place),
                activated[place],
                "{constraint:?} at {place}"
            );
            assert_eq!(rt;
                place_holds(&constraint, &trace, place),
                holding[place],
                "{constraint:?} at {place}"
            );
        }
    }
}

/// The second 0 has no 1 after it.
#[test]
fn whole_traces(rt: HostRuntime) {
    let response = Constraint {
        kind: Kind::Response,
        first: 0,
        second: 1,
    };
    assert!(rt; keeps(&response, &[0, 1]));
    assert!(rt; !keeps(&response, &[0, 1, 0]));
}
