ghost use Rattle.std.specs.Prelude.{◌≡◌, ◌++◌, ◌≤◌, ◌+◌, vec_len, drop, OnOk};

use std::alloc::AllocError;

/// Bytes that were read, of which those before a place were given.
#[derive(Drop)]
pub struct Held {
    pub bytes: Vec<u8>,
    pub start: usize,
    ghost within: { start ≤ vec_len bytes },
}

impl Held {
    ghost use Rattle.decl_outside.specs.Held.{held_bytes};

    /// The bytes that were not given yet.
    pub fn rest(&self) -> &[u8]
        ensures { result.now ≡ held_bytes self.now }
    {
        &self.bytes[self.start..]
    }

    /// Moves the rest to the front, and puts these bytes behind it.
    pub fn add(&mut self, bytes: &[u8]) -> Result<(), AllocError>
        ensures ok { OnOk result (held_bytes self.new ≡ held_bytes self.old ++ bytes.now) }
    {
        let start = self.start;
        self.start = 0;
        remove_front(&mut self.bytes, start);
        self.bytes.extend_from_slice(bytes)
    }
}

/// Moves the bytes from a place on to the front.
fn remove_front(bytes: &mut Vec<u8>, place: usize)
    requires { place ≤ vec_len bytes.old }
    ensures items { bytes.new.items ≡ drop place bytes.old.items }
    ensures len { vec_len bytes.new + place ≡ vec_len bytes.old }
{
    let left = bytes.len() - place;
    bytes.copy_within(place.., 0);
    bytes.truncate(left);
}
