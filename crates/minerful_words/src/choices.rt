//! The settings that the texts among the words give.

ghost use Rattle.std.specs.Prelude.{◌≡◌, ◌*◌, ◌≤◌, Ok, Some, OnOk, IfOk, IfErr, option_map, true};
ghost use Rattle.std.specs.Option.{ok_or};
ghost use Rattle.clap.specs.Words.{found_of, rows_of};
ghost use Rattle.minerful_words.specs.Rows.{option_row};
ghost use Rattle.minerful_words.specs.Settings.{CertifiesModel, Gives, NamesTemplate, Refuses, can_certify, most_events, put, reads_standard_input_twice, together, reads_two, with_text, without_options};
ghost use Rattle.minerful_words.specs.Settings.{settings_in as settings_of_found, text_for as text_of_option};
ghost use Rattle.minerful_words.specs.Steps.{IsBounded};

use crate::clap_command::text_of;
use crate::grammars::{keep_named, number_between, order_as_named, repertoire_numbered};
use crate::limits::{
    MOST_EVENTS, MOST_LENGTH, MOST_LETTERS, MOST_LISTED, MOST_SEED, MOST_STATES, MOST_TRACES,
    STATES,
};
use crate::settings::{Command, Format, Out, Settings, Stage};
use crate::table::{CommandOption, Field};
use clap::ArgMatches;
use decl_base::{Name, Refusal, Threshold, Thresholds};
use log_columns::{Columns, OrderAs};
use std::alloc::Global;
use template_core::Repertoire;

const SUPPORT: Threshold = Threshold {
    millionths: 950_000,
};

const CONFIDENCE: Threshold = Threshold {
    millionths: 250_000,
};

const INTEREST: Threshold = Threshold {
    millionths: 125_000,
};

/// The name of standard input.
const STANDARD_INPUT: &str = "-";

/// The settings that a command has with what it found in the words.
pub(crate) fn settings_in(
    alloc: Global,
    command: Command,
    found: &ArgMatches,
) -> Result<Settings, Refusal>
    ensures value { Gives result (settings_of_found command (rows_of (found_of found.now))) }
    ensures bounded { IfOk result IsBounded }
    ensures events { IfOk result (λ s. s.traces * s.length ≤ most_events) }
    ensures certificate { IfOk result CertifiesModel }
    ensures template { IfOk result NamesTemplate }
{
    let mut settings = Settings::without_options(alloc, command, found)?;
    for option in CommandOption::all() {
        let text = text_for(command, found, option);
        settings.give(alloc, option, text)?;
    }
    settings.fit_together()?;
    Ok(settings)
}

/// The text of an option, where the command takes it and the words give it.
fn text_for<'a>(command: Command, found: &ArgMatches<'a>, option: &CommandOption) -> Option<&'a str>
    ensures { option_map (λ s. s.now) result ≡ text_of_option command (rows_of (found_of found.now)) (option_row option.now) }
{
    if option.is_for(command) {
        text_of(found, option.name)
    } else {
        None
    }
}

/// The text as a name, where there is one.
fn name_if_any(alloc: Global, text: Option<&str>) -> Result<Option<Name>, Refusal>
    ensures value { IfOk result (λ name. name ≡ option_map (λ s. s.now) text.entry) }
    ensures err { IfErr result (λ e. e ≡ Refusal.Memory) }
{
    match text {
        Some(text) => Ok(Some(Name::of(alloc, text)?)),
        None => Ok(None),
    }
}

impl Settings {
    /// The settings of a command before its options are looked at.
    #[tactic(auto, unfolding(crate::specs::Settings::without_options))]
    fn without_options(
        alloc: Global,
        command: Command,
        found: &ArgMatches,
    ) -> Result<Settings, Refusal>
        ensures value { IfOk result (λ s. s ≡ without_options command (rows_of (found_of found.now))) }
        ensures bounded { IfOk result IsBounded }
        ensures err { IfErr result (λ e. e ≡ Refusal.Memory) }
    {
        Ok(Settings {
            command,
            model: Name::of(alloc, text_of(found, "model").unwrap_or(""))?,
            log: Name::of(alloc, text_of(found, "log").unwrap_or(STANDARD_INPUT))?,
            format: Format::Strings,
            columns: Columns {
                case: Name::of(alloc, "case")?,
                activity: Name::of(alloc, "activity")?,
                order: None,
                order_as: OrderAs::Text,
            },
            thresholds: Thresholds {
                support: SUPPORT,
                confidence: CONFIDENCE,
                interest: INTEREST,
            },
            states: STATES,
            stage: Stage::Model,
            out: Out::Json,
            seed: 0,
            traces: 100,
            length: 10,
            letters: 4,
            repertoire: Repertoire::First,
            keep: false,
            first: 3,
            word: name_if_any(alloc, text_of(found, "word"))?,
        })
    }

    /// Gives the option's field the value of the text, where there is one.
    fn give(
        &mut self,
        alloc: Global,
        option: &CommandOption,
        text: Option<&str>,
    ) -> Result<(), Refusal>
        ensures ok { OnOk result (with_text (option_row option.now) (option_map (λ s. s.now) text.entry) self.old ≡ Ok self.new) }
        ensures bounded { OnOk result (IsBounded self.old → IsBounded self.new) }
        ensures err { IfErr result (λ e. Refuses e (with_text (option_row option.now) (option_map (λ s. s.now) text.entry) self.old)) }
    {
        match text {
            Some(text) => self.set(alloc, option.field, text, option.number),
            None => Ok(()),
        }
    }

    /// Sets a field to the value of a text. A text that isn't in the field's grammar is a fault at this place.
    #[tactic(auto, unfolding(crate::specs::Settings::put))]
    fn set(&mut self, alloc: Global, field: Field, text: &str, at: u32) -> Result<(), Refusal>
        ensures ok { OnOk result (put field text.now self.old ≡ Some self.new) }
        ensures bounded { OnOk result (IsBounded self.old → IsBounded self.new) }
        ensures err { IfErr result (λ e. Refuses e (ok_or (put field text.now self.old) at)) }
    {
        let fault = Refusal::Usage { at };
        match field {
            Field::Format => self.format = Format::named(text).ok_or(fault)?,
            Field::CaseColumn => self.columns.case = Name::of(alloc, text)?,
            Field::ActivityColumn => self.columns.activity = Name::of(alloc, text)?,
            Field::OrderColumn => self.columns.order = Some(Name::of(alloc, text)?),
            Field::OrderAs => self.columns.order_as = order_as_named(text).ok_or(fault)?,
            Field::Support => self.thresholds.support = Threshold::read(text).ok_or(fault)?,
            Field::Confidence => self.thresholds.confidence = Threshold::read(text).ok_or(fault)?,
            Field::Interest => self.thresholds.interest = Threshold::read(text).ok_or(fault)?,
            Field::States => self.states = number_between(text, 1, MOST_STATES).ok_or(fault)?,
            Field::Stage => self.stage = Stage::named(text).ok_or(fault)?,
            Field::Out => self.out = Out::named(text).ok_or(fault)?,
            Field::Seed => self.seed = number_between(text, 0, MOST_SEED).ok_or(fault)?,
            Field::Traces => self.traces = number_between(text, 0, MOST_TRACES).ok_or(fault)?,
            Field::Length => self.length = number_between(text, 1, MOST_LENGTH).ok_or(fault)?,
            Field::Letters => self.letters = number_between(text, 1, MOST_LETTERS).ok_or(fault)?,
            Field::Repertoire => self.repertoire = repertoire_numbered(text).ok_or(fault)?,
            Field::OnLimit => self.keep = keep_named(text).ok_or(fault)?,
            Field::First => self.first = number_between(text, 0, MOST_LISTED).ok_or(fault)? as u32,
        }
        Ok(())
    }

    /// Whether the settings fit together: standard input is read once, a generated log is small enough, a certificate is of
    /// a whole model, and an expression is that of a template.
    #[tactic(auto, unfolding(crate::specs::Settings::together))]
    fn fit_together(&self) -> Result<(), Refusal>
        requires { IsBounded self.now }
        ensures ok { OnOk result (together self.now ≡ Ok self.now) }
        ensures certificate { OnOk result (CertifiesModel self.now) }
        ensures template { OnOk result (NamesTemplate self.now) }
        ensures events { OnOk result (self.now.traces * self.now.length ≤ most_events) }
        ensures err { IfErr result (λ e. Refuses e (together self.now)) }
    {
        if self.reads_standard_input_twice() {
            return Err(Refusal::Usage { at: 17 });
        }
        if self.traces * self.length > MOST_EVENTS {
            return Err(Refusal::Usage { at: 18 });
        }
        if !self.can_certify() {
            return Err(Refusal::Usage { at: 24 });
        }
        self.name_template()
    }

    fn reads_standard_input_twice(&self) -> bool
        ensures { result ≡ reads_standard_input_twice self.now }
    {
        self.command.reads_two()
            && self.model.text() == STANDARD_INPUT
            && self.log.text() == STANDARD_INPUT
    }

    /// Whether a certificate, where one is asked for, is of the model, with each constraint tested.
    fn can_certify(&self) -> bool
        ensures value { result ≡ can_certify self.now.out self.now.stage self.now.keep }
        ensures certificate { result ≡ true → CertifiesModel self.now }
    {
        match self.out {
            Out::Cert => self.stage == Stage::Model && !self.keep,
            Out::Json | Out::Table => true,
        }
    }
}

impl Command {
    /// Whether the command has two inputs.
    fn reads_two(self) -> bool
        ensures { result ≡ reads_two self }
    {
        matches!(self, Command::Check | Command::Monitor | Command::Compare)
    }
}
