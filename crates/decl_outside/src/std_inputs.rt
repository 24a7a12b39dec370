ghost use Rattle.std.specs.Prelude.{◌≡◌, ◌<◌, [], not, length, None, Some, is_some, true, false, OnOk, OnErr};
ghost use Rattle.std.specs.Io.{ReadsAtMost};
ghost use Rattle.std.specs.Io.KnownBytes.{ReadConsumes};
ghost use Rattle.decl_outside.specs.Asked.{names_of, last_of};
ghost use Rattle.decl_outside.specs.Inputs.{InputState, Opens, Reads, is_standard, left_of};

use crate::asked::Asked;
use crate::{Failed, Inputs};
use decl_base::Name;
use std::io::Read;
use std::rt::Files;
use std::{fs, io};

/// Files, and standard input. Nothing is told of their bytes.
#[derive(Drop)]
pub struct StdInputs<R: Files + Input + Drop> {
    rt: R,
    file: Option<R::File>,
    standard: Option<R::Reader>,
    asked: Asked,
    has_failed: bool,
    is_open: bool,
    faults: u64,
}

impl<R: Files + Input + Drop> StdInputs<R> {
    /// Nothing is open, and no name was asked for.
    pub fn new(rt: R) -> StdInputs<R>
        ensures { ⟦<StdInputs<R> as Inputs>⟧.state result ≡ record {
          faults = 0;
          asked = None;
          names = Some [];
          has_failed = false;
          is_open = false;
          contents = None;
          left = None;
        } }
    {
        StdInputs {
            rt,
            file: None,
            standard: None,
            asked: Asked::Nothing,
            has_failed: false,
            is_open: false,
            faults: 0,
        }
    }
}

impl<R: Files + Input + Drop> Inputs for StdInputs<R> {
    ghost state = { λ s. record {
      faults = s.faults;
      asked = last_of s.asked;
      names = names_of s.asked;
      has_failed = s.has_failed;
      is_open = s.is_open;
      contents = None;
      left = None;
    } };

    /// Goes over to standard input for the name `-`, which doesn't fail, and to a file for any other.
    fn open(&mut self, name: Name) -> Result<(), Failed>
        ensures opens { Opens name (⟦<StdInputs<R> as Inputs>⟧.state self.old) (⟦<StdInputs<R> as Inputs>⟧.state self.new) result }
        ensures file { OnOk result (is_some self.new.file ≡ not (is_standard name)) }
        ensures standard { OnOk result (is_some self.new.standard ≡ is_standard name) }
        ensures failed { OnErr result (is_standard name ≡ false) }
    {
        self.file = None;
        self.standard = None;
        if name.text() == "-" {
            self.standard = Some(self.rt.reader());
            self.has_failed = false;
        } else {
            match fs::open(&self.rt, name.text()) {
                Ok(file) => {
                    self.file = Some(file);
                    self.has_failed = false;
                }
                Err(_) => {
                    self.has_failed = true;
                }
            }
        }
        self.asked.note(name);
        self.is_open = !self.has_failed;
        if self.has_failed {
            self.faults = self.faults.saturating_add(1);
            return Err(Failed);
        }
        Ok(())
    }

    /// Reads from the file that is open, else from standard input.
    fn read(&mut self, buffer: &mut [u8]) -> Result<usize, Failed>
        requires room { 0 < length buffer.old }
        requires open { self.old.is_open ≡ true }
        ensures reads { Reads (⟦<StdInputs<R> as Inputs>⟧.state self.old) (⟦<StdInputs<R> as Inputs>⟧.state self.new) buffer.new result }
        ensures given { ReadConsumes (left_of R.File.Read.remaining R.Reader.remaining self.old.file self.old.standard)
            (left_of R.File.Read.remaining R.Reader.remaining self.new.file self.new.standard) result buffer.new }
    {
        match read_current(&mut self.file, &mut self.standard, buffer) {
            Ok(count) => Ok(count),
            Err(_) => {
                self.has_failed = true;
                self.faults = self.faults.saturating_add(1);
                Err(Failed)
            }
        }
    }
}

fn read_current<F: Read, S: Read>(
    file: &mut Option<F>,
    standard: &mut Option<S>,
    buffer: &mut [u8],
) -> io::Result<usize>
    ensures bound { ReadsAtMost result buffer.new }
    ensures given { ReadConsumes (left_of F.remaining S.remaining file.old standard.old)
        (left_of F.remaining S.remaining file.new standard.new) result buffer.new }
{
    if let Some(file) = file {
        return file.read(buffer);
    }
    if let Some(standard) = standard {
        return standard.read(buffer);
    }
    Ok(0)
}
