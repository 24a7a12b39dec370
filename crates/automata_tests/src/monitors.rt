//! What no clause says.
ghost use Rattle.std.specs.Prelude.{◌≡◌, ◌<◌, length, IfOk};
ghost use Rattle.template_core.specs.Constraints.{IsWellMadeFor};
ghost use Rattle.live_monitor.specs.Stands.{IsMonitor, case_count, constraints_of, symbols_of};

use decl_base::Refusal;
use live_monitor::{Monitor, Standing};
use std::alloc::Global;
use std::test::Fail;
use template_core::{Constraint, Kind};

fn constraint(kind: Kind, first: u32, second: u32) -> Constraint
    ensures { result ≡ record { kind = kind; first = first; second = second } }
{
    Constraint {
        kind,
        first,
        second,
    }
}

// A monitor of two constraints over the symbols 0 to 2.
fn monitor_of(alloc: Global, one: Constraint, two: Constraint) -> Result<Monitor, Refusal>
    requires one { IsWellMadeFor 3 one }
    requires two { IsWellMadeFor 3 two }
    ensures monitor { IfOk result IsMonitor }
    ensures cases { IfOk result (λ m. case_count m ≡ 0) }
    ensures symbols { IfOk result (λ m. symbols_of m ≡ 3) }
    ensures constraints { IfOk result (λ m. length (constraints_of m) ≡ 2) }
{
    Monitor::new(alloc, &[one, two], 3, 16)
}

// After an event, the standings of the case by the list, by its first constraint and by its second.
fn after(monitor: &mut Monitor, case: u32, symbol: u32) -> (Standing, Standing, Standing)
    requires monitor { IsMonitor monitor.old }
    requires begun { case < case_count monitor.old }
    requires known { symbol < symbols_of monitor.old }
    requires constraints { length (constraints_of monitor.old) ≡ 2 }
    ensures monitor { IsMonitor monitor.new }
    ensures cases { case_count monitor.new ≡ case_count monitor.old }
    ensures symbols { symbols_of monitor.new ≡ symbols_of monitor.old }
    ensures constraints { length (constraints_of monitor.new) ≡ 2 }
{
    monitor.event(case, symbol);
    let whole = monitor.whole(case);
    (whole, monitor.one(case, 0), monitor.one(case, 1))
}

/// The first case has the trace 0 0 1, and the second the trace 1 between its events.
#[test]
fn two_cases(rt: HostRuntime) -> Result<(), Fail> {
    let response = constraint(Kind::Response, 0, 1);
    let once = constraint(Kind::AtMostOne, 0, 0);
    let mut monitor = monitor_of(rt.alloc(), response, once)?;
    let first = monitor.begin()?;
    let (whole, one, two) = after(&mut monitor, first, 0);
    assert!(rt; whole == Standing::BrokenNow && one == Standing::BrokenNow);
    assert!(rt; two == Standing::KeptNow);
    let second = monitor.begin()?;
    let (whole, one, two) = after(&mut monitor, second, 1);
    assert!(rt; whole == Standing::KeptNow && one == Standing::KeptNow && two == Standing::KeptNow);
    let (whole, one, two) = after(&mut monitor, first, 0);
    assert!(rt; whole == Standing::Broken && one == Standing::BrokenNow && two == Standing::Broken);
    let (whole, one, two) = after(&mut monitor, first, 1);
    assert!(rt; whole == Standing::Broken && one == Standing::KeptNow && two == Standing::Broken);
    Ok(())
}

/// After a 0, each of the two constraints may still be kept, and not both.
#[test]
fn a_conflict(rt: HostRuntime) -> Result<(), Fail> {
    let not_both = constraint(Kind::NotCoExistence, 0, 1);
    let some = constraint(Kind::Participation, 1, 1);
    let mut monitor = monitor_of(rt.alloc(), not_both, some)?;
    let case = monitor.begin()?;
    let (whole, one, two) = after(&mut monitor, case, 0);
    assert!(rt; whole == Standing::Broken && one == Standing::KeptNow);
    assert!(rt; two == Standing::BrokenNow);
    Ok(())
}

/// With one symbol alone, a trace that ends with it always will.
#[test]
fn one_symbol(rt: HostRuntime) -> Result<(), Fail> {
    let end = constraint(Kind::End, 0, 0);
    let mut monitor = Monitor::new(rt.alloc(), &[end], 1, 16)?;
    let case = monitor.begin()?;
    assert!(rt; monitor.one(case, 0) == Standing::BrokenNow);
    monitor.event(case, 0);
    assert!(rt; monitor.one(case, 0) == Standing::Kept);
    assert!(rt; monitor.whole(case) == Standing::Kept);
    Ok(())
}
