ghost use Rattle.std.specs.Prelude.{◌≡◌, ◌≤◌, ◌+◌, [], length, IfOk, IfErr, OnOk};
ghost use Rattle.event_log.specs.Logs.{place_of, with_name};
ghost use Rattle.event_log.specs.Within.{CanCount};
ghost use Rattle.csv_log.specs.Kept.{AddsEvent, CaseCause, CollectCause, Collects};

use crate::Columns;
use crate::kept::Kept;
use crate::keys::Keys;
use crate::row::Fields;
use decl_base::{Limits, Refusal};
use event_log::Alphabet;
use std::alloc::Global;

/// The events that were read.
#[derive(Drop)]
pub(crate) struct Collected {
    /// The names of the cases, in the order of their first events.
    pub cases: Alphabet,
    /// The names of the activities, in the order of their first events.
    pub activities: Alphabet,
    pub events: Vec<Kept>,
    /// By what the events are ordered.
    pub keys: Keys,
}

impl Collected {
    /// No event.
    pub fn new(alloc: Global, columns: &Columns, limits: &Limits) -> Collected
        requires { CanCount limits.now }
        ensures { Collects columns.now limits.now [] result }
    {
        Collected {
            cases: Alphabet::new(alloc, limits.traces),
            activities: Alphabet::new(alloc, limits.activities),
            events: Vec::new(alloc),
            keys: Keys::new(alloc, columns),
        }
    }

    /// The number of the record of the next event. The header is record 1.
    pub fn next_number(&self) -> u64
        ensures { result ≡ length self.now.events.items + 2 }
    {
        self.events.len() as u64 + 2
    }

    /// Puts an event in, behind those that are there.
    pub fn add(&mut self, fields: &Fields, limits: &Limits) -> Result<(), Refusal>
        ensures ok { OnOk result (AddsEvent fields.now limits.now self.old self.new) }
        ensures err { IfErr result (CollectCause fields.now limits.now self.old) }
    {
        if self.events.len() as u64 >= limits.events {
            return Err(Refusal::Events {
                limit: limits.events,
            });
        }
        let case = add_case(&mut self.cases, fields.case)?;
        let activity = self.activities.add(fields.activity)?;
        self.keys.add(fields)?;
        let place = self.events.len();
        self.events.push(Kept {
            case,
            activity,
            place,
        })?;
        Ok(())
    }
}

/// The number of the case, which goes last where it is new.
fn add_case(cases: &mut Alphabet, name: &str) -> Result<u32, Refusal>
    ensures id { IfOk result (λ id. id ≡ place_of cases.old.names name.now) }
    ensures ok { OnOk result (cases.new ≡ record { names = with_name cases.old.names name.now; limit = cases.old.limit }) }
    ensures within { OnOk result (length cases.new.names ≤ cases.new.limit) }
    ensures cause { IfErr result (CaseCause cases.old name.now) }
{
    match cases.add(name) {
        Ok(id) => Ok(id),
        Err(Refusal::Activities { limit }) => Err(Refusal::Traces { limit }),
        Err(refusal) => Err(refusal),
    }
}
