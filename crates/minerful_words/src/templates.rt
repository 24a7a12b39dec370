//! The template whose expression is asked for, and the word that the expression is tried on.

ghost use Rattle.std.specs.Prelude.{◌≡◌, Ok, OnOk, IfErr, IfSome};
ghost use Rattle.std.specs.List.{list_all};
ghost use Rattle.template_core.specs.Constraints.{IsTemplate};
ghost use Rattle.minerful_words.specs.Settings.{NamesTemplate, Refuses, expression_asked};
ghost use Rattle.minerful_words.specs.Templates.{is_letter, is_word, kind_named};

use crate::settings::{Command, Settings};
use decl_base::Refusal;
use template_core::Kind;
use template_set::{arity, kind_of};

/// The greatest number of characters of a word.
const LONGEST_WORD: usize = 64;

impl Settings {
    /// Where an expression is asked for, whether its template is known and its word is one of the template's letters.
    pub(crate) fn name_template(&self) -> Result<(), Refusal>
        ensures ok { OnOk result (expression_asked self.now ≡ Ok self.now) }
        ensures template { OnOk result (NamesTemplate self.now) }
        ensures err { IfErr result (λ e. Refuses e (expression_asked self.now)) }
    {
        if self.command != Command::Regex {
            return Ok(());
        }
        let Some(kind) = self.template() else {
            return Err(Refusal::Usage { at: 22 });
        };
        match &self.word {
            Some(word) if !is_word(kind, word.text()) => Err(Refusal::Usage { at: 23 }),
            _ => Ok(()),
        }
    }

    /// The template that has the model's name.
    pub fn template(&self) -> Option<Kind>
        ensures kind { result ≡ kind_named self.now.model }
        ensures template { IfSome result IsTemplate }
    {
        kind_of(self.model.text())
    }
}

/// Whether the text is a word over the template's letters.
#[tactic(auto, unfolding(crate::specs::Templates::is_word))]
fn is_word(kind: Kind, text: &str) -> bool
    requires { IsTemplate kind }
    ensures { result ≡ is_word kind text.now }
{
    text.len() <= LONGEST_WORD && are_letters(arity(kind), text.as_bytes())
}

fn are_letters(activities: u8, bytes: &[u8]) -> bool
    ensures { result ≡ list_all (is_letter activities) bytes.now }
{
    bytes.iter().all(|byte| is_letter(activities, *byte))
}

/// Whether the byte is a letter for so many activities: `a` or `x`, or `b` where there are two.
fn is_letter(activities: u8, byte: u8) -> bool
    ensures { result ≡ is_letter activities byte }
{
    byte == b'a' || byte == b'x' || byte == b'b' && activities == 2
}
