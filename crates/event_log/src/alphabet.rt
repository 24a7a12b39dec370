ghost use Rattle.std.specs.Prelude.{◌≡◌, ◌≤◌, ◌<◌, ◌^◌, ℕ, [], length, map, Some, position, string_bytes, slice_get, IfOk, IfErr, OnErr, OnOk};
ghost use Rattle.std.specs.Str.{bytes_eq};
ghost use Rattle.event_log.specs.Alphabet.{AddCause};
ghost use Rattle.event_log.specs.Logs.{place_of, with_name, first_seen, in_byte_order, StandOnce};

use decl_base::Refusal;
use indexmap::IndexSet;
use std::alloc::Global;
use std::collections::BTreeSet;
use std::marker::Model;

/// Different names, each with its place as its number.
#[derive(Drop)]
pub struct Alphabet {
    alloc: Global,
    names: IndexSet<String>,
    limit: u64,
}

impl Model for Alphabet {
    ghost use Rattle.std.specs.Prelude.{map, string_bytes, length, ◌≤◌, ◌<◌, ◌^◌};
    ghost use Rattle.event_log.specs.Alphabet.{Names};

    ghost Value = { Names };

    ghost view = { λ a. record { names = map string_bytes a.names.keys; limit = a.limit } };

    ghost invariant = { λ a. (length a.names.keys ≤ a.limit) × (a.limit < 2 ^ 32) };
}

impl Alphabet {
    /// No name. At most so many fit.
    pub fn new(alloc: Global, limit: u64) -> Alphabet
        requires { limit < 2 ^ 32 }
        ensures { result ≡ record { names = []; limit = limit } }
    {
        Alphabet {
            alloc,
            names: IndexSet::new(alloc),
            limit,
        }
    }

    /// The number of the name, which goes last where it is new.
    pub fn add(&mut self, name: &str) -> Result<u32, Refusal>
        ensures id { IfOk result (λ id. id ≡ place_of self.old.names name.now) }
        ensures ok { OnOk result (self.new ≡ record { names = with_name self.old.names name.now; limit = self.old.limit }) }
        ensures within { OnOk result (length self.new.names ≤ self.new.limit) }
        ensures err { OnErr result (self.new ≡ self.old) }
        ensures cause { IfErr result (AddCause self.old name.now) }
    {
        if let Some(id) = self.names.get_index_of(name) {
            return Ok(id as u32);
        }
        if self.names.len() as u64 >= self.limit {
            return Err(Refusal::Activities { limit: self.limit });
        }
        let (id, _) = self.names.insert_full(String::from_str(self.alloc, name)?)?;
        Ok(id as u32)
    }

    /// The number of the name, where it is there.
    pub fn find(&self, name: &str) -> Option<u32>
        ensures { result ≡ position (bytes_eq name.now) self.now.names }
    {
        match self.names.get_index_of(name) {
            Some(id) => Some(id as u32),
            None => None,
        }
    }

    /// The name of this number.
    pub fn name(&self, id: u32) -> &str
        requires { id < length self.now.names }
        ensures { slice_get self.now.names id ≡ Some result.now }
    {
        match self.names.get_index(id as usize) {
            Some(name) => name.as_str(),
            None => "",
        }
    }

    /// The number of names.
    pub fn len(&self) -> u32
        ensures { result ≡ length self.now.names }
    {
        self.names.len() as u32
    }

    /// Each name stands once: at its number, and nowhere else.
    pub fn names_differ(&self)
        ensures { StandOnce self.now.names }
    {
        let _count = self.names.len();
    }

    /// At each number the rank of its name in the order of bytes.
    pub fn ranks(&self) -> Result<Vec<u32>, Refusal>
        ensures ok { IfOk result (λ ranks. ranks.items ≡ map (place_of (in_byte_order self.now.names)) self.now.names) }
        ensures err { IfErr result (λ e. e ≡ Refusal.Memory) }
    {
        let ordered = self.in_order()?;
        let mut ranks = Vec::with_capacity(self.alloc, self.len() as usize)?;
        for id in 0..self.len() {
            ranks.push(ordered.place(self.name(id)))?;
        }
        Ok(ranks)
    }

    /// The same names in the order of their bytes.
    pub fn in_order(&self) -> Result<Alphabet, Refusal>
        ensures ok { IfOk result (λ ordered. ordered ≡ record { names = in_byte_order self.now.names; limit = self.now.limit }) }
        ensures err { IfErr result (λ e. e ≡ Refusal.Memory) }
    {
        let names = set_of(self.alloc, self.sorted()?)?;
        Ok(Alphabet {
            alloc: self.alloc,
            names,
            limit: self.limit,
        })
    }

    /// The names as a set that the order of bytes sorts.
    fn sorted(&self) -> Result<BTreeSet<String>, Refusal>
        ensures ok { IfOk result (λ set. map string_bytes set.keys ≡ in_byte_order self.now.names) }
        ensures err { IfErr result (λ e. e ≡ Refusal.Memory) }
    {
        let mut set = BTreeSet::new(self.alloc);
        for id in 0..self.len() {
            set.insert(String::from_str(self.alloc, self.name(id))?)?;
        }
        Ok(set)
    }

    /// The number of the name, or of names where it isn't there.
    fn place(&self, name: &str) -> u32
        ensures { result ≡ place_of self.now.names name.now }
    {
        match self.find(name) {
            Some(id) => id,
            None => self.len(),
        }
    }
}

/// The names as a set that keeps them in their turn.
fn set_of(alloc: Global, mut names: BTreeSet<String>) -> Result<IndexSet<String>, Refusal>
    ensures ok { IfOk result (λ set. map string_bytes set.keys ≡ first_seen (map string_bytes names.keys)) }
    ensures err { IfErr result (λ e. e ≡ Refusal.Memory) }
{
    let mut set = IndexSet::new(alloc);
    while let Some(name) = names.pop_first() {
        set.insert(name)?;
    }
    Ok(set)
}
