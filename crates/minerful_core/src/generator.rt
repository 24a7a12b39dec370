//! Logs that a seed gives.

ghost use Rattle.std.specs.Prelude.{◌≡◌, ◌<◌, ◌≤◌, ◌++◌, IfOk, IfErr, OnOk};
ghost use Rattle.minerful_core.specs.Generator.{first_state, next_state, drawn_below, state_behind, trace_drawn, byte_of, line_of_trace, generated_text};
ghost use Rattle.minerful_words.specs.Grammars.{IsBetween, most_letters};
ghost use Rattle.minerful_words.specs.Settings.{CanGenerate};

use decl_base::Refusal;
use std::alloc::Global;

/// The states are below this prime.
const PRIME: u64 = 2_147_483_647;

/// Each state is so many times the one before it, modulo the prime.
const FACTOR: u64 = 48_271;

/// The draws of a generator: the state of the last one.
#[derive(Drop)]
struct Draws {
    state: u64,
    ghost small: { state < 2147483647 },
}

impl Draws {
    fn of_seed(seed: u64) -> Draws
        ensures { result.state ≡ first_state seed }
    {
        Draws {
            state: 1 + seed % (PRIME - 1),
        }
    }

    /// Draws a number below the bound.
    fn below(&mut self, bound: u64) -> u64
        requires { 0 < bound }
        ensures state { self.new.state ≡ next_state self.old.state }
        ensures value { result ≡ drawn_below bound self.old.state }
        ensures small { result < bound }
    {
        self.state = FACTOR * self.state % PRIME;
        self.state % bound
    }
}

/// A string log of `traces` traces, each of 1 to `length` of the first `letters` letters. `Memory` where none is left.
#[tactic(auto, unfolding(crate::specs::Generator::generated_text))]
pub fn generate(
    alloc: Global,
    seed: u64,
    traces: u64,
    length: u64,
    letters: u64,
) -> Result<Vec<u8>, Refusal>
    requires { CanGenerate seed traces length letters }
    ensures ok { IfOk result (λ text. text.items ≡ generated_text seed traces length letters) }
    ensures err { IfErr result (λ e. e ≡ Refusal.Memory) }
{
    let mut text = Vec::new(alloc);
    let mut draws = Draws::of_seed(seed);
    for _ in 0..traces {
        push_line(&mut text, &mut draws, length, letters)?;
    }
    Ok(text)
}

/// Draws a trace, and puts its letters and a line feed behind the text.
fn push_line(
    text: &mut Vec<u8>,
    draws: &mut Draws,
    length: u64,
    letters: u64,
) -> Result<(), Refusal>
    requires length { 1 ≤ length }
    requires letters { IsBetween 1 most_letters letters }
    ensures text { OnOk result (text.new.items ≡ text.old.items ++ line_of_trace (trace_drawn length letters draws.old.state)) }
    ensures state { OnOk result (draws.new.state ≡ state_behind length draws.old.state) }
    ensures err { IfErr result (λ e. e ≡ Refusal.Memory) }
{
    let further = draws.below(length);
    let mut letter = draws.below(2) % letters;
    text.push(byte_of(letter))?;
    for _ in 0..further {
        letter = (letter + draws.below(3)) % letters;
        text.push(byte_of(letter))?;
    }
    text.push(b'\n')?;
    Ok(())
}

/// The letter of a number: 0 is `a`.
fn byte_of(letter: u64) -> u8
    requires { letter < most_letters }
    ensures { result ≡ byte_of letter }
{
    b'a' + letter as u8
}
