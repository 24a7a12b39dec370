ghost use Rattle.std.specs.Prelude.{◌≡◌, ◌≤◌, IfOk, map, string_bytes};
ghost use Rattle.minerful_words.specs.Grammars.{IsLimit, most_listed, format_of, stage_of, out_of};
ghost use Rattle.minerful_words.specs.Settings.{settings, Gives, AreFractions, CanGenerate, CertifiesModel, NamesTemplate};

use crate::choices::settings_in;
use crate::clap_command::parse;
use crate::table::CommandForm;
use decl_base::{Name, Refusal, Thresholds};
use log_columns::Columns;
use std::alloc::Global;
use template_core::Repertoire;

/// What a run does.
#[derive(Clone, Copy, Debug, PartialEq, Eq)]
pub enum Command {
    /// Reports the model of a log.
    Mine,
    /// Shows the knowledge base of a log.
    Kb,
    /// Checks a log against a model.
    Check,
    /// Writes a generated log.
    Gen,
    /// Shows a summary of mining a generated log.
    Sample,
    /// Tries the certificate of a report.
    Verify,
    /// Says of each case of a running log how it stands to a model.
    Monitor,
    /// Compares the traces of two models.
    Compare,
    /// Shows what a model's traces are like.
    Analyse,
    /// Shows the regular expression of a template, or tries it on a word.
    Regex,
}

/// How a log is written.
#[derive(Clone, Copy, Debug, PartialEq, Eq)]
pub enum Format {
    Strings,
    Csv,
}

/// How far a log is mined.
#[derive(Clone, Copy, Debug, PartialEq, Eq)]
pub enum Stage {
    /// The reduced model, with a witness for each constraint that stays.
    Model,
    /// The candidates with conflicts removed.
    Consistent,
    /// All candidates with their scores.
    Scores,
}

/// How a report is written.
#[derive(Clone, Copy, Debug, PartialEq, Eq)]
pub enum Out {
    Json,
    Table,
    /// The JSON report, with a proof that can be tried.
    Cert,
}

/// What the words of the command line ask for. What a command doesn't use has its default.
#[derive(Debug, Drop)]
pub struct Settings {
    pub command: Command,
    /// The name of the model's input, `-` for standard input; of `verify`, the certificate's, and of `compare`, the first
    /// model's. To `regex` it is the name of a template. Empty where the command takes none of these.
    pub model: Name,
    /// The name of the log's input, `-` for standard input; of `compare`, the second model's.
    pub log: Name,
    pub format: Format,
    pub columns: Columns,
    pub thresholds: Thresholds,
    /// The greatest number of states of an automaton.
    pub states: u64,
    pub stage: Stage,
    pub out: Out,
    /// The seed of a generated log, up to 4,294,967,295.
    pub seed: u64,
    /// The number of traces of a generated log, up to 1,048,575.
    pub traces: u64,
    /// The greatest length of a generated trace, from 1 to 1,000.
    pub length: u64,
    /// The number of letters of a generated log, from 1 to 26.
    pub letters: u64,
    /// The templates whose constraints are mined.
    pub repertoire: Repertoire,
    /// Whether a constraint whose list is too wide is left out or left untested, in place of refusing the log.
    pub keep: bool,
    /// The number of traces that an analysis lists, up to 20.
    pub first: u32,
    /// The word that `regex` tries.
    pub word: Option<Name>,
}

impl Settings {
    /// The settings that the words after the program's name give. `Usage` is 0 where the first word names no command,
    /// 1 where the command doesn't take the words, else the least number of an option whose value isn't in its
    /// grammar, else 17 where a command reads both its inputs from standard input, else 18 where the number of traces
    /// times their length is above 16,777,215, else 24 where a certificate is asked of another stage than the model's, or
    /// of a run that keeps on at the limit on states, else 22 where `regex` has no template's name, and else 23 where its
    /// word has more than 64 characters or one that isn't a letter of the template.
    #[tactic(auto, unfolding(crate::specs::Settings::settings))]
    pub fn read(alloc: Global, words: &[String]) -> Result<Settings, Refusal>
        ensures value { Gives result (settings (map string_bytes words.now)) }
        ensures thresholds { IfOk result (λ s. AreFractions s.thresholds) }
        ensures states { IfOk result (λ s. IsLimit s.states) }
        ensures generator { IfOk result (λ s. CanGenerate s.seed s.traces s.length s.letters) }
        ensures first { IfOk result (λ s. s.first ≤ most_listed) }
        ensures certificate { IfOk result CertifiesModel }
        ensures template { IfOk result NamesTemplate }
    {
        let Some(word) = words.first() else {
            return Err(Refusal::Usage { at: 0 });
        };
        let Some(form) = CommandForm::named(word.as_str()) else {
            return Err(Refusal::Usage { at: 0 });
        };
        let found = parse(alloc, form, words)?;
        settings_in(alloc, form.command, &found)
    }
}

impl Format {
    #[tactic(auto, unfolding(crate::specs::Grammars::format_of))]
    pub(crate) fn named(text: &str) -> Option<Format>
        ensures { result ≡ format_of text.now }
    {
        match text {
            "string" => Some(Format::Strings),
            "csv" => Some(Format::Csv),
            _ => None,
        }
    }
}

impl Stage {
    #[tactic(auto, unfolding(crate::specs::Grammars::stage_of))]
    pub(crate) fn named(text: &str) -> Option<Stage>
        ensures { result ≡ stage_of text.now }
    {
        match text {
            "model" => Some(Stage::Model),
            "consistent" => Some(Stage::Consistent),
            "scores" => Some(Stage::Scores),
            _ => None,
        }
    }
}

impl Out {
    #[tactic(auto, unfolding(crate::specs::Grammars::out_of))]
    pub(crate) fn named(text: &str) -> Option<Out>
        ensures { result ≡ out_of text.now }
    {
        match text {
            "json" => Some(Out::Json),
            "table" => Some(Out::Table),
            "cert" => Some(Out::Cert),
            _ => None,
        }
    }
}
