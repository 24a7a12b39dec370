ghost use Rattle.std.specs.Prelude.{◌≡◌, Some};

use decl_base::Name;
use std::mem;

/// The names that were asked for, one after the other, with no memory beyond theirs.
#[derive(Debug, Drop)]
pub enum Asked {
    Nothing,
    One(Name),
    Two(Name, Name),
    /// More than two, of which this is the last.
    More(Name),
}

impl Asked {
    ghost use Rattle.decl_outside.specs.Asked.{names_of, last_of};
    ghost use Rattle.decl_outside.specs.Inputs.{noted};

    /// One name more was asked for.
    pub fn note(&mut self, name: Name)
        ensures names { names_of self.new ≡ noted (names_of self.old) name }
        ensures last { last_of self.new ≡ Some name }
    {
        *self = match mem::replace(self, Asked::Nothing) {
            Asked::Nothing => Asked::One(name),
            Asked::One(first) => Asked::Two(first, name),
            Asked::Two(..) | Asked::More(_) => Asked::More(name),
        };
    }
}
