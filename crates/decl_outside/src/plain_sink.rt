ghost use Rattle.std.specs.Prelude.{◌≡◌, ◌<◌, ◌≤◌, ◌+◌, [], length, min, vec_len, vec_capacity, Some, true, false, IsOk, IfOk, IfErr};
ghost use Rattle.decl_outside.specs.Sink.{CanTake, Writes};

use crate::{Failed, Sink};
use decl_base::Refusal;
use std::alloc::Global;

/// A sink in memory of a fixed room, of which no write fails. What is handed to it has to fit the room that is left.
#[derive(Drop)]
pub struct PlainSink {
    bytes: Vec<u8>,
    room: u64,
    per_write: u64,
    ghost takes_some: { 0 < per_write },
    ghost has_room: { vec_len bytes + room ≤ vec_capacity bytes },
}

impl PlainSink {
    ghost use Rattle.decl_outside.specs.PlainSink.{state_of};

    /// Holds nothing, has room for so many bytes, and takes at most `per_write` of them a write.
    pub fn new(alloc: Global, room: u64, per_write: u64) -> Result<PlainSink, Refusal>
        requires { 0 < per_write }
        ensures ok { IfOk result (λ sink. state_of sink ≡ record { faults = 0; held = Some []; takes_any_length = false; room = room }) }
        ensures per_write { IfOk result (λ sink. sink.per_write ≡ per_write) }
        ensures err { IfErr result (λ e. e ≡ Refusal.Memory) }
    {
        Ok(PlainSink {
            bytes: Vec::with_capacity(alloc, room as usize)?,
            room,
            per_write,
        })
    }

    /// The bytes that it holds.
    pub fn bytes(&self) -> &[u8]
        ensures { (state_of self.now).held ≡ Some result.now }
    {
        &self.bytes
    }
}

impl Sink for PlainSink {
    ghost use Rattle.decl_outside.specs.PlainSink.{state_of};

    ghost state = { state_of };

    /// Doesn't fail, and takes as much as it can.
    fn write(&mut self, piece: &[u8]) -> Result<usize, Failed>
        requires some { 0 < length piece.now }
        requires fits { CanTake (state_of self.old) (length piece.now) }
        ensures writes { Writes (state_of self.old) (state_of self.new) piece.now result }
        ensures never_fails { IsOk result }
        ensures count { IfOk result (λ n. n ≡ min (length piece.now) self.old.per_write) }
        ensures per_write { self.new.per_write ≡ self.old.per_write }
    {
        let count = (piece.len() as u64).min(self.per_write) as usize;
        self.bytes.extend_from_slice(&piece[..count]).unwrap();
        self.room -= count as u64;
        Ok(count)
    }
}
