ghost use Rattle.std.specs.Prelude.{◌≡◌, Option, map, option_map, option_and_then, IfOk};
ghost use Rattle.serde_json.specs.Data.{Data};
ghost use Rattle.serde_json.specs.Find.{get};
ghost use Rattle.serde_json.specs.View.{view};
ghost use Rattle.model_json.specs.Model.{list_in};
ghost use Rattle.model_json.specs.Certificate.{list_of, list_under, mark_in, number_in, tuple_in};

use serde_json::Value;
use std::alloc::{AllocError, Global};

/// What stands in the lists of a certificate's links: numbers, marks, and tuples of numbers.
pub(crate) trait Element: Copy {
    ghost of: { Data → Option Self };

    /// The element that the value is.
    fn read(value: &Value) -> Option<Self>
        ensures { result ≡ of (view value.now) };
}

impl Element for u32 {
    ghost of = { number_in };

    fn read(value: &Value) -> Option<u32> {
        let number = value.as_u64()?;
        if number <= u32::MAX as u64 {
            Some(number as u32)
        } else {
            None
        }
    }
}

impl Element for bool {
    ghost of = { mark_in };

    fn read(value: &Value) -> Option<bool> {
        match u32::read(value)? {
            0 => Some(false),
            1 => Some(true),
            _ => None,
        }
    }
}

impl<const N: usize> Element for [u32; N] {
    ghost of = { tuple_in N };

    fn read(value: &Value) -> Option<[u32; N]> {
        let list = value.as_array()?.as_slice();
        if list.len() != N {
            return None;
        }
        let mut tuple = [0; N];
        for (place, element) in list.iter().enumerate() {
            tuple[place] = u32::read(element)?;
        }
        Some(tuple)
    }
}

/// The elements of a list.
pub(crate) fn list_of<T: Element>(
    alloc: Global,
    value: &Value,
) -> Result<Option<Vec<T>>, AllocError>
    ensures { IfOk result (λ list. option_map (λ l. l.items) list ≡ list_of T.of (view value.now)) }
{
    let Some(list) = value.as_array() else {
        return Ok(None);
    };
    let mut elements = Vec::new(alloc);
    for element in list {
        let Some(element) = T::read(element) else {
            return Ok(None);
        };
        elements.push(element)?;
    }
    Ok(Some(elements))
}

/// The elements of the list that a member is.
pub(crate) fn list_under<T: Element>(
    alloc: Global,
    name: &str,
    value: &Value,
) -> Result<Option<Vec<T>>, AllocError>
    ensures { IfOk result (λ list. option_map (λ l. l.items) list ≡ list_under T.of name.now (view value.now)) }
{
    match value.get(name) {
        Some(value) => list_of(alloc, value),
        None => Ok(None),
    }
}

/// The elements of the list that a member is, as values.
pub(crate) fn values_under<'a>(name: &str, value: &'a Value) -> Option<&'a [Value]>
    ensures { option_map (λ list. map view list.now) result ≡ option_and_then list_in (get name.now (view value.now)) }
{
    Some(value.get(name)?.as_array()?.as_slice())
}
