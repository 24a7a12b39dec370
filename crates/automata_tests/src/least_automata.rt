ghost use Rattle.std.specs.Prelude.{◌+◌, ◌<◌, ◌^◌};

use decl_base::Refusal;
use dfa_core::Dfa;
use dfa_minimise::{least, least_within};
use std::alloc::Global;
use std::test::Fail;

// Each state leads to the next, and the last, which alone accepts, to itself.
fn chain(alloc: Global, last: u32) -> Result<Dfa, Refusal>
    requires { last + 1 < 2 ^ 32 }
{
    let mut next = Vec::new(alloc);
    let mut accepting = Vec::new(alloc);
    for state in 0..last {
        next.push(state + 1)?;
        accepting.push(false)?;
    }
    next.push(last)?;
    accepting.push(true)?;
    Ok(Dfa::of(vec![in alloc; 0]?, 1, 0, next, accepting))
}

#[test]
fn chain_stays(rt: HostRuntime) -> Result<(), Fail> {
    let chain = chain(rt.alloc(), 262_143)?;
    let least = least(rt.alloc(), &chain)?;
    assert_eq!(rt; least.states(), 262_144);
    assert_eq!(rt; least.start(), 0);
    Ok(())
}

#[test]
fn more_states_than_the_limit_are_none(rt: HostRuntime) -> Result<(), Fail> {
    let chain = chain(rt.alloc(), 3)?;
    for limit in 0..4 {
        let least = least_within(rt.alloc(), &chain, limit)?;
        assert!(rt; least.is_none());
    }
    let least = least_within(rt.alloc(), &chain, 4)?;
    assert!(rt; least.is_some_and(|least| least.states() == 4));
    Ok(())
}

// Seven states in a ring over one symbol, which all accept, or none.
fn ring(alloc: Global, accepts: bool) -> Result<Dfa, Refusal> {
    let next = vec![in alloc; 1, 2, 3, 4, 5, 6, 0]?;
    Ok(Dfa::of(vec![in alloc; 0]?, 1, 3, next, vec![in alloc; accepts; 7]?))
}

#[test]
fn like_states_are_one(rt: HostRuntime) -> Result<(), Fail> {
    for accepts in [true, false] {
        let ring = ring(rt.alloc(), accepts)?;
        let least = least(rt.alloc(), &ring)?;
        assert_eq!(rt; least.states(), 1);
    }
    Ok(())
}

#[test]
fn states_are_numbered_breadth_first(rt: HostRuntime) -> Result<(), Fail> {
    let alloc = rt.alloc();
    // The traces with a 1, from the start 2, in four states of which 1 and 3 are alike.
    let next = vec![in alloc; 2, 1, 3, 3, 2, 1, 1, 3]?;
    let columns = vec![in alloc; 0, 1]?;
    let shuffled = Dfa::of(
        columns,
        2,
        2,
        next,
        vec![in alloc; false, true, false, true]?,
    );
    let least = least(alloc, &shuffled)?;
    assert_eq!(rt; least.states(), 2);
    assert!(rt; least.start() == 0 && least.accepts(&[0, 1]) && !least.accepts(&[0]));
    Ok(())
}
