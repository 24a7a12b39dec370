use decl_base::Refusal;
use event_log::{Alphabet, Log};
use std::process::Abort;
use std::test::Fail;

#[test]
fn numbers_names(rt: HostRuntime) -> Result<(), Fail> {
    let mut names = Alphabet::new(rt.alloc(), 2);
    let added = [
        ("b", Ok(0)),
        ("a", Ok(1)),
        ("b", Ok(0)),
        ("c", Err(Refusal::Activities { limit: 2 })),
    ];
    for (name, number) in added {
        assert_eq!(rt; names.add(name), number);
    }
    assert_eq!(rt; names.find("a"), Some(1));
    assert_eq!(rt; names.find("c"), None);
    order(&rt, &names)
}

/// Puts the names b and a in order.
fn order(rt: &impl Abort, names: &Alphabet) -> Result<(), Fail> {
    assert_eq!(rt; names.ranks()?.as_slice(), [1, 0].as_slice());
    let ordered = names.in_order()?;
    assert_eq!(rt; ordered.len(), 2);
    assert_eq!(rt; ordered.name(1), "b");
    Ok(())
}

#[test]
fn keeps_traces(rt: HostRuntime) -> Result<(), Fail> {
    let mut log = Log::new(rt.alloc(), 2, 2);
    log.begin_trace()?;
    log.push_event(1)?;
    log.push_trace(&[0])?;
    assert_eq!(rt; log.push_event(0), Err(Refusal::Events { limit: 2 }));
    assert_eq!(rt; log.begin_trace(), Err(Refusal::Traces { limit: 2 }));
    assert_eq!(rt; log.event_count(), 2);
    assert_eq!(rt; log.traces(), 2);
    assert_eq!(rt; log.trace(1), [0].as_slice());
    assert_eq!(rt; Log::new(rt.alloc(), 1, 1).ranked(&[])?.traces(), 0);
    Ok(())
}
