//! The commands and the options of the command line, a row for each.

ghost use Rattle.std.specs.Prelude.{◌≡◌, map, option_map};
ghost use Rattle.minerful_words.specs.Rows.{command_row, option_row};
ghost use Rattle.minerful_words.specs.Table.{commands, options, row_named, takes};

use crate::settings::Command;

/// A field of the settings that the text of an option sets.
#[derive(Clone, Copy, Debug, PartialEq, Eq)]
pub(crate) enum Field {
    Format,
    CaseColumn,
    ActivityColumn,
    OrderColumn,
    OrderAs,
    Support,
    Confidence,
    Interest,
    States,
    Stage,
    Out,
    Seed,
    Traces,
    Length,
    Letters,
    Repertoire,
    OnLimit,
    First,
}

/// An option with one text, and the commands that take it.
pub(crate) struct CommandOption {
    /// The place of a fault in its text.
    pub number: u32,
    pub name: &'static str,
    pub commands: &'static [Command],
    pub field: Field,
}

/// A text that is known by its place among the words.
pub(crate) struct Positional {
    pub name: &'static str,
    pub is_required: bool,
}

/// A command's name, and its texts by place.
pub(crate) struct CommandForm {
    pub command: Command,
    pub name: &'static str,
    pub positionals: &'static [Positional],
}

/// The commands that read a log.
const READING: &[Command] = &[Command::Mine, Command::Kb, Command::Check];

/// The commands that mine a log.
const MINING: &[Command] = &[Command::Mine];

/// The commands that make an automaton.
const LIMITED: &[Command] = &[
    Command::Mine,
    Command::Monitor,
    Command::Compare,
    Command::Analyse,
];

/// The commands that list the first traces of a model.
const LISTING: &[Command] = &[Command::Analyse];

/// The commands that generate a log.
const GENERATING: &[Command] = &[Command::Gen, Command::Sample];

/// The commands that write the log that they generate.
const WRITING: &[Command] = &[Command::Gen];

const OPTIONS: [CommandOption; 18] = [
    CommandOption {
        number: 2,
        name: "format",
        commands: READING,
        field: Field::Format,
    },
    CommandOption {
        number: 3,
        name: "case-column",
        commands: READING,
        field: Field::CaseColumn,
    },
    CommandOption {
        number: 4,
        name: "activity-column",
        commands: READING,
        field: Field::ActivityColumn,
    },
    CommandOption {
        number: 5,
        name: "order-column",
        commands: READING,
        field: Field::OrderColumn,
    },
    CommandOption {
        number: 6,
        name: "order-as",
        commands: READING,
        field: Field::OrderAs,
    },
    CommandOption {
        number: 7,
        name: "support",
        commands: MINING,
        field: Field::Support,
    },
    CommandOption {
        number: 8,
        name: "confidence",
        commands: MINING,
        field: Field::Confidence,
    },
    CommandOption {
        number: 9,
        name: "interest",
        commands: MINING,
        field: Field::Interest,
    },
    CommandOption {
        number: 10,
        name: "max-states",
        commands: LIMITED,
        field: Field::States,
    },
    CommandOption {
        number: 11,
        name: "stage",
        commands: MINING,
        field: Field::Stage,
    },
    CommandOption {
        number: 12,
        name: "out",
        commands: MINING,
        field: Field::Out,
    },
    CommandOption {
        number: 13,
        name: "seed",
        commands: GENERATING,
        field: Field::Seed,
    },
    CommandOption {
        number: 14,
        name: "traces",
        commands: WRITING,
        field: Field::Traces,
    },
    CommandOption {
        number: 15,
        name: "length",
        commands: WRITING,
        field: Field::Length,
    },
    CommandOption {
        number: 16,
        name: "letters",
        commands: WRITING,
        field: Field::Letters,
    },
    CommandOption {
        number: 19,
        name: "repertoire",
        commands: MINING,
        field: Field::Repertoire,
    },
    CommandOption {
        number: 20,
        name: "on-limit",
        commands: MINING,
        field: Field::OnLimit,
    },
    CommandOption {
        number: 21,
        name: "first",
        commands: LISTING,
        field: Field::First,
    },
];

/// The model; to `verify`, a certificate; to `compare`, the first model; to `regex`, the name of a template.
const MODEL: Positional = Positional {
    name: "model",
    is_required: true,
};

/// The log, standard input where it isn't given.
const LOG: Positional = Positional {
    name: "log",
    is_required: false,
};

/// The second model of a comparison, in the log's place.
const SECOND_MODEL: Positional = Positional {
    name: "log",
    is_required: true,
};

/// The word that an expression is tried on.
const WORD: Positional = Positional {
    name: "word",
    is_required: false,
};

const COMMANDS: [CommandForm; 10] = [
    CommandForm {
        command: Command::Mine,
        name: "mine",
        positionals: &[LOG],
    },
    CommandForm {
        command: Command::Kb,
        name: "kb",
        positionals: &[LOG],
    },
    CommandForm {
        command: Command::Check,
        name: "check",
        positionals: &[MODEL, LOG],
    },
    CommandForm {
        command: Command::Gen,
        name: "gen",
        positionals: &[],
    },
    CommandForm {
        command: Command::Sample,
        name: "sample",
        positionals: &[],
    },
    CommandForm {
        command: Command::Verify,
        name: "verify",
        positionals: &[MODEL],
    },
    CommandForm {
        command: Command::Monitor,
        name: "monitor",
        positionals: &[MODEL, LOG],
    },
    CommandForm {
        command: Command::Compare,
        name: "compare",
        positionals: &[MODEL, SECOND_MODEL],
    },
    CommandForm {
        command: Command::Analyse,
        name: "analyse",
        positionals: &[MODEL],
    },
    CommandForm {
        command: Command::Regex,
        name: "regex",
        positionals: &[MODEL, WORD],
    },
];

impl CommandOption {
    /// All options, in the order of their numbers.
    #[tactic(auto, unfolding(crate::specs::Table::options))]
    pub(crate) fn all() -> &'static [CommandOption]
        ensures { map option_row result.now ≡ options }
    {
        &OPTIONS
    }

    /// Whether the command takes this option.
    pub(crate) fn is_for(&self, command: Command) -> bool
        ensures { result ≡ takes command (option_row self.now) }
    {
        self.commands.contains(&command)
    }
}

impl CommandForm {
    /// All commands.
    #[tactic(auto, unfolding(crate::specs::Table::commands))]
    fn all() -> &'static [CommandForm]
        ensures { map command_row result.now ≡ commands }
    {
        &COMMANDS
    }

    /// The command of this name.
    pub(crate) fn named(text: &str) -> Option<&'static CommandForm>
        ensures { option_map (λ form. command_row form.now) result ≡ row_named text.now }
    {
        for form in CommandForm::all() {
            if form.name == text {
                return Some(form);
            }
        }
        None
    }
}
