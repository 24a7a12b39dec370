ghost use Rattle.std.specs.Prelude.{◌≡◌, ◌<◌, ◌≤◌, ◌^◌, [], false, length, IfOk, IfErr, OnOk};
ghost use Rattle.decl_base.specs.Limits.{standard};
ghost use Rattle.live_monitor.specs.Stands.{StandsFor, constraints_of, symbols_of};
ghost use Rattle.event_log.specs.Logs.{has_name, place_of};
ghost use Rattle.monitor_lines.specs.Cases.{symbol_count};
ghost use Rattle.monitor_lines.specs.Stepping.{CaseCause, HasCase, IsReady, LineCause, TakesLine, TellsStandings};

use crate::text::{letter, put_each, put_number, quote};
use decl_base::{Limits, Refusal};
use decl_outside::Line;
use event_log::Alphabet;
use live_monitor::Monitor;
use std::alloc::{AllocError, Global};

/// The cases that have begun, as they first appear, and where each stands.
#[derive(Drop)]
pub(crate) struct Cases {
    pub alloc: Global,
    pub found: Alphabet,
    /// Of each case, its name as a JSON text.
    pub texts: Vec<String>,
    pub monitor: Monitor,
}

impl Cases {
    /// No case has begun. At most so many may.
    pub(crate) fn new(alloc: Global, monitor: Monitor, limit: u64) -> Cases
        requires { limit < 2 ^ 32 }
        ensures found { result.found ≡ record { names = []; limit = limit } }
        ensures texts { result.texts.items ≡ [] }
        ensures monitor { result.monitor ≡ monitor }
    {
        Cases {
            alloc,
            found: Alphabet::new(alloc, limit),
            texts: Vec::new(alloc),
            monitor,
        }
    }

    /// Tries a line, and puts its event at the end of its case's trace: the case's number.
    pub(crate) fn take(
        &mut self,
        names: &Alphabet,
        line: &Line<'_>,
        limits: &Limits,
    ) -> Result<u32, Refusal>
        requires ready { IsReady self.old }
        requires limit { self.old.found.limit ≡ limits.now.traces }
        requires few { limits.now.traces ≤ standard.traces }
        requires symbols { symbols_of self.old.monitor ≡ symbol_count names.now.names }
        ensures ok { IfOk result (TakesLine limits.now names.now.names self.old self.new line.now) }
        ensures cause { IfErr result (LineCause limits.now self.old.found.names line.now) }
    {
        let number = line.number();
        let text = match str::from_utf8(line.bytes()) {
            Ok(text) => text,
            Err(_) => return Err(Refusal::NotUtf8 { line: number }),
        };
        let Some((case, name)) = text.split_once('\t') else {
            return Err(Refusal::NoTab { line: number });
        };
        if number > limits.events {
            return Err(Refusal::Events {
                limit: limits.events,
            });
        }
        let id = self.number_of(case, limits.traces)?;
        self.monitor.event(id, symbol_of(names, name));
        Ok(id)
    }

    /// The number of the case, which begins where it isn't there.
    fn number_of(&mut self, name: &str, limit: u64) -> Result<u32, Refusal>
        requires ready { IsReady self.old }
        requires limit { self.old.found.limit ≡ limit }
        requires few { limit ≤ standard.traces }
        ensures id { IfOk result (λ id. id ≡ place_of self.old.found.names name.now) }
        ensures ok { OnOk result (HasCase self.old self.new name.now) }
        ensures cause { IfErr result (CaseCause self.old.found name.now) }
    {
        if let Some(id) = self.found.find(name) {
            return Ok(id);
        }
        if self.found.len() as u64 >= limit {
            return Err(Refusal::Traces { limit });
        }
        self.begin(name)
    }

    /// Begins a case that isn't there, where there is room: its number.
    fn begin(&mut self, name: &str) -> Result<u32, Refusal>
        requires new { has_name self.old.found.names name.now ≡ false }
        requires room { length self.old.found.names < self.old.found.limit }
        requires few { self.old.found.limit ≤ standard.traces }
        requires ready { IsReady self.old }
        ensures id { IfOk result (λ id. id ≡ place_of self.old.found.names name.now) }
        ensures ok { OnOk result (HasCase self.old self.new name.now) }
        ensures err { IfErr result (λ e. e ≡ Refusal.Memory) }
    {
        self.texts.push(quote(self.alloc, name)?)?;
        let id = self.found.add(name)?;
        self.monitor.begin()?;
        Ok(id)
    }

    /// Puts the text of a line of this case in the place of another.
    pub(crate) fn put_text(
        &self,
        number: u64,
        case: u32,
        constraints: u32,
        text: &mut Vec<u8>,
    ) -> Result<(), AllocError>
        requires ready { IsReady self.now }
        requires begun { case < length self.now.found.names }
        requires constraints { constraints ≡ length (constraints_of self.now.monitor) }
        ensures { OnOk result (TellsStandings self.now number case text.new.items) }
    {
        text.clear();
        put_number(text, number)?;
        text.push(b' ')?;
        text.extend_from_slice(self.texts[case as usize].as_bytes())?;
        text.push(b' ')?;
        text.push(letter(self.monitor.whole(case)))?;
        text.push(b' ')?;
        put_each(text, &self.monitor, case, constraints)?;
        text.push(b'\n')?;
        Ok(())
    }
}

/// The symbol of a name: its place, or the last symbol where it isn't there.
fn symbol_of(names: &Alphabet, name: &str) -> u32
    ensures { result ≡ place_of names.now.names name.now }
{
    match names.find(name) {
        Some(id) => id,
        None => names.len(),
    }
}
