ghost use Rattle.std.specs.Prelude.{◌≡◌, ◌<◌, ◌++◌, ◌∷◌, [], List, ℕ, map, string_bytes, decimal, length, IfOk, OnOk};
ghost use Rattle.live_monitor.specs.Stands.{IsMonitor, StandsFor, case_count, constraints_of, symbols_of, trace_of};
ghost use Rattle.monitor_lines.specs.LineText.{AreOnes, letter, letters, quoted};

use live_monitor::{Monitor, Standing};
use serde_json::Value;
use std::alloc::{AllocError, Global};

/// A name as a JSON text.
pub(crate) fn quote(alloc: Global, name: &str) -> Result<String, AllocError>
    ensures { IfOk result (λ text. string_bytes text ≡ quoted name.now) }
{
    let value = Value::String(String::from_str(alloc, name)?);
    value.to_string(alloc)
}

/// Decimal digits.
pub(crate) fn put_number(text: &mut Vec<u8>, number: u64) -> Result<(), AllocError>
    ensures { OnOk result (text.new.items ≡ text.old.items ++ decimal number) }
{
    let mut buffer = itoa::Buffer::new();
    text.extend_from_slice(buffer.format(number).as_bytes())
}

/// What stands for a standing.
pub(crate) fn letter(standing: Standing) -> u8
    ensures { result ≡ letter standing }
{
    match standing {
        Standing::Kept => b'K',
        Standing::KeptNow => b'k',
        Standing::BrokenNow => b'b',
        Standing::Broken => b'B',
    }
}

/// The standings of a case by each of so many constraints, or `-` where there are none.
pub(crate) fn put_each(
    text: &mut Vec<u8>,
    monitor: &Monitor,
    case: u32,
    constraints: u32,
) -> Result<(), AllocError>
    requires monitor { IsMonitor monitor.now }
    requires begun { case < case_count monitor.now }
    requires constraints { constraints ≡ length (constraints_of monitor.now) }
    ensures { OnOk result ((each : List Standing) × (text.new.items ≡ text.old.items ++ letters each)
        × ((traces : List (List ℕ)) → StandsFor monitor.now traces
        → AreOnes (symbols_of monitor.now) (constraints_of monitor.now) (trace_of traces case) each)) }
{
    if constraints == 0 {
        text.push(b'-')?;
        return Ok(());
    }
    for place in 0..constraints {
        text.push(letter(monitor.one(case, place)))?;
    }
    Ok(())
}
