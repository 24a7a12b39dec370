ghost use Rattle.std.specs.Prelude.{◌≡◌, ◌++◌, IsSome, codes, map, IfOk, IfErr};
ghost use Rattle.regex_forms.specs.Trees.{view};
ghost use Rattle.regex_forms.specs.Matching.{Matches};
ghost use Rattle.regex_forms.specs.Printing.{text as printed};
ghost use Rattle.minerful_words.specs.Templates.{kind_named};
ghost use Rattle.minerful_core.specs.Outcome.{AnswersYes, IsExpressionOutcome, answers, class_of_letter};
ghost use Rattle.minerful_core.specs.Run.{IsEnd};

use crate::answer::Answer;
use decl_base::{Refusal, Status};
use minerful_words::Settings;
use regex_forms::{Form, form_of, matches, print};
use std::alloc::{AllocError, Global};
use template_core::Class;

/// The expression of the template that the settings name, or whether it matches their word.
pub(crate) fn express(alloc: Global, settings: &Settings) -> Result<Answer, Refusal>
    requires { IsSome (kind_named settings.now.model) }
    ensures text { IfOk result (λ a. IsExpressionOutcome (kind_named settings.now.model) settings.now.word (answers a.status a.text.items)) }
    ensures end { IfOk result (λ a. IsEnd a.status) }
    ensures err { IfErr result (λ e. e ≡ Refusal.Memory) }
{
    let Some(kind) = settings.template() else {
        return Err(Refusal::Usage { at: 22 });
    };
    let form = form_of(alloc, kind)?;
    match &settings.word {
        Some(word) => try_word(alloc, &form, word.text()),
        None => expression(alloc, &form),
    }
}

/// The form as a line.
fn expression(alloc: Global, form: &Form) -> Result<Answer, Refusal>
    ensures text { IfOk result (λ a. answers a.status a.text.items ≡ answers Status.Done (printed (view form.now) ++ codes "\n")) }
    ensures end { IfOk result (λ a. IsEnd a.status) }
    ensures err { IfErr result (λ e. e ≡ Refusal.Memory) }
{
    let mut text = print(alloc, form)?;
    text.push(b'\n')?;
    Ok(Answer {
        status: Status::Done,
        text,
    })
}

/// Whether the form matches the word.
fn try_word(alloc: Global, form: &Form, word: &str) -> Result<Answer, Refusal>
    ensures text { IfOk result (λ a. AnswersYes (Matches (view form.now) (map class_of_letter word.now)) (answers a.status a.text.items)) }
    ensures end { IfOk result (λ a. IsEnd a.status) }
    ensures err { IfErr result (λ e. e ≡ Refusal.Memory) }
{
    let classes = classes_of(alloc, word.as_bytes())?;
    let (status, text) = if matches(alloc, form, &classes)? {
        (Status::Done, "yes\n")
    } else {
        (Status::Differs, "no\n")
    };
    let text = Vec::from_slice(alloc, text.as_bytes())?;
    Ok(Answer { status, text })
}

/// The classes of a word's letters.
fn classes_of(alloc: Global, word: &[u8]) -> Result<Vec<Class>, AllocError>
    ensures { IfOk result (λ classes. classes.items ≡ map class_of_letter word.now) }
{
    word.iter()
        .map(|byte| class_of_letter(*byte))
        .collect(alloc)
}

/// The class that a letter stands for.
fn class_of_letter(byte: u8) -> Class
    ensures { result ≡ class_of_letter byte }
{
    match byte {
        b'a' => Class::First,
        b'b' => Class::Second,
        _ => Class::Other,
    }
}
