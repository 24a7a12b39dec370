ghost use Rattle.std.specs.Prelude.{◌≡◌, ◌<◌, ◌≤◌, [], length, take, drop, true, false, None, Some, option_map};
ghost use Rattle.decl_outside.specs.Inputs.{Opens, Reads};

use decl_base::Name;
use decl_outside::{Failed, Inputs};

/// A text in memory as the only input, whatever its name. It never fails.
#[derive(Drop)]
pub(crate) struct TextInput {
    text: Vec<u8>,
    place: usize,
    asked: Option<Name>,
}

impl TextInput {
    ghost use Rattle.minerful_core.specs.TextInput.{state_of, unread_text};

    /// The text is open, from its first byte.
    pub(crate) fn of(text: Vec<u8>) -> TextInput
        ensures { state_of result ≡ unread_text text.items }
    {
        TextInput {
            text,
            place: 0,
            asked: None,
        }
    }
}

impl Inputs for TextInput {
    ghost use Rattle.minerful_core.specs.TextInput.{state_of};

    ghost state = { state_of };

    fn open(&mut self, name: Name) -> Result<(), Failed>
        ensures { Opens name (state_of self.old) (state_of self.new) result }
    {
        self.asked = Some(name);
        self.place = 0;
        Ok(())
    }

    fn read(&mut self, buffer: &mut [u8]) -> Result<usize, Failed>
        requires room { 0 < length buffer.old }
        requires open { (state_of self.old).is_open ≡ true }
        ensures { Reads (state_of self.old) (state_of self.new) buffer.new result }
    {
        let rest = rest_of(&self.text, self.place);
        let count = copy_front(rest, buffer);
        self.place += count;
        Ok(count)
    }
}

/// What is left from a place on.
fn rest_of(text: &[u8], place: usize) -> &[u8]
    ensures { result.now ≡ drop place text.now }
{
    text.get(place..).unwrap_or(&[])
}

/// Copies a prefix of the bytes to the front of the buffer, and answers its length.
fn copy_front(bytes: &[u8], buffer: &mut [u8]) -> usize
    requires { 0 < length buffer.old }
    ensures within { result ≤ length bytes.now }
    ensures fits { result ≤ length buffer.new }
    ensures copied { take result buffer.new ≡ take result bytes.now }
    ensures none_at_end { result ≡ 0 → bytes.now ≡ [] }
{
    let count = bytes.len().min(buffer.len());
    buffer[..count].copy_from_slice(&bytes[..count]);
    count
}
