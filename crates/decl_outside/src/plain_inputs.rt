ghost use Rattle.std.specs.Prelude.{◌≡◌, ◌<◌, min, [], length, true, false, None, Some, IsOk, IfOk, OnOk, OnErr, IfErr};
ghost use Rattle.decl_outside.specs.MemFiles.{bytes_from};

use crate::asked::Asked;
use crate::mem_files::{MemFile, copy_front, position_of, rest_of};
use crate::{Failed, Inputs};
use decl_base::{Name, Refusal};
use std::alloc::Global;

/// Inputs in memory, of which no call fails. An unknown name is an empty input.
#[derive(Drop)]
pub struct PlainInputs {
    files: Vec<MemFile>,
    per_read: u64,
    asked: Asked,
    is_open: bool,
    current: Option<usize>,
    place: usize,
    ghost reads_some: { 0 < per_read },
    ghost closed: { is_open ≡ false → current ≡ None },
}

impl PlainInputs {
    ghost use Rattle.decl_outside.specs.Inputs.{with_file};
    ghost use Rattle.decl_outside.specs.PlainInputs.{state_of};

    /// Inputs without a name, which give at most so many bytes a read.
    pub fn new(alloc: Global, per_read: u64) -> PlainInputs
        requires { 0 < per_read }
        ensures state { state_of result ≡ record {
          faults = 0;
          asked = None;
          names = Some [];
          has_failed = false;
          is_open = false;
          contents = Some (λ _. []);
          left = Some [];
        } }
        ensures per_read { result.per_read ≡ per_read }
    {
        PlainInputs {
            files: Vec::new(alloc),
            per_read,
            asked: Asked::Nothing,
            is_open: false,
            current: None,
            place: 0,
        }
    }

    /// Makes the name stand for these bytes, in place of what it stood for.
    pub fn put(&mut self, name: Name, bytes: Vec<u8>) -> Result<(), Refusal>
        requires { (state_of self.old).is_open ≡ false }
        ensures ok { OnOk result (state_of self.new ≡ with_file (state_of self.old) name bytes.items) }
        ensures err { OnErr result (state_of self.new ≡ state_of self.old) }
        ensures cause { IfErr result (λ e. e ≡ Refusal.Memory) }
        ensures per_read { self.new.per_read ≡ self.old.per_read }
    {
        self.files.insert(0, MemFile { name, bytes })?;
        Ok(())
    }
}

impl Inputs for PlainInputs {
    ghost use Rattle.decl_outside.specs.Inputs.{Opens, Reads};
    ghost use Rattle.decl_outside.specs.PlainInputs.{state_of};

    ghost state = { state_of };

    /// Doesn't fail.
    fn open(&mut self, name: Name) -> Result<(), Failed>
        ensures opens { Opens name (state_of self.old) (state_of self.new) result }
        ensures never_fails { IsOk result }
        ensures per_read { self.new.per_read ≡ self.old.per_read }
    {
        self.current = position_of(&self.files, name.text());
        self.asked.note(name);
        self.place = 0;
        self.is_open = true;
        Ok(())
    }

    /// Doesn't fail, and gives as much as it can.
    fn read(&mut self, buffer: &mut [u8]) -> Result<usize, Failed>
        requires room { 0 < length buffer.old }
        requires open { (state_of self.old).is_open ≡ true }
        ensures reads { Reads (state_of self.old) (state_of self.new) buffer.new result }
        ensures never_fails { IsOk result }
        ensures count { IfOk result (λ n. n ≡ min (min (length (bytes_from self.old.files.items self.old.current self.old.place))
            (length buffer.old)) self.old.per_read) }
        ensures per_read { self.new.per_read ≡ self.old.per_read }
    {
        let rest = rest_of(&self.files, self.current, self.place);
        let count = copy_front(rest, buffer, self.per_read as usize);
        self.place += count;
        Ok(count)
    }
}
