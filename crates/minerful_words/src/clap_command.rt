ghost use Rattle.std.specs.Prelude.{◌≡◌, true, false, IfOk, IfErr, Ok, codes, map, fold, option_map, string_bytes};
ghost use Rattle.clap.specs.Words.{app_of, rule_of, with_rule, is_simple_and_free, found_of, rows_of, first_of};
ghost use Rattle.minerful_words.specs.Apps.{text_option, text_by_place, bare_app, app_for, taken};
ghost use Rattle.minerful_words.specs.Apps.{with_option as option_added, with_positional as positional_added};
ghost use Rattle.minerful_words.specs.Rows.{command_row, option_row, positional_row};
ghost use Rattle.minerful_words.specs.Settings.{Refuses};
ghost use Rattle.minerful_words.specs.Table.{options};

use crate::settings::Command;
use crate::table::{CommandForm, CommandOption, Positional};
use clap::error::ErrorKind;
use clap::{Arg, ArgAction, ArgMatches};
use decl_base::Refusal;
use std::alloc::{AllocError, Global};

/// What a command finds in the words. The first word is its name.
pub(crate) fn parse<'a>(
    alloc: Global,
    form: &CommandForm,
    words: &'a [String],
) -> Result<ArgMatches<'a>, Refusal>
    requires { is_simple_and_free (app_for (command_row form.now)) ≡ true }
    ensures rows { IfOk result (λ m. taken (app_for (command_row form.now)) (map string_bytes words.entry.now) ≡ Ok (rows_of (found_of m))) }
    ensures refusal { IfErr result (λ e. Refuses e (taken (app_for (command_row form.now)) (map string_bytes words.entry.now))) }
{
    let command = clap_command(alloc, form)?;
    let error = match command.try_get_matches_from(words) {
        Ok(matches) => return Ok(matches),
        Err(error) => error,
    };
    if error.kind() == ErrorKind::OutOfMemory {
        return Err(Refusal::Memory);
    }
    Err(Refusal::Usage { at: 1 })
}

/// The text that an argument has in the words.
pub(crate) fn text_of<'a>(matches: &ArgMatches<'a>, id: &str) -> Option<&'a str>
    ensures { option_map (λ s. s.now) result ≡ first_of id.now (rows_of (found_of matches.now)) }
{
    matches.get_str(id)
}

/// The command as `clap` has it, with the options that it takes and its texts by place.
#[tactic(auto, unfolding(crate::specs::Apps::app_for))]
fn clap_command<'a>(alloc: Global, form: &CommandForm) -> Result<clap::Command<'a>, AllocError>
    ensures { IfOk result (λ c. app_of c ≡ app_for (command_row form.now)) }
{
    let command = with_options(alloc, bare_command(alloc, form.name), form.command)?;
    with_positionals(alloc, command, form.positionals)
}

fn bare_command<'a>(alloc: Global, name: &'a str) -> clap::Command<'a>
    ensures { app_of result ≡ bare_app name.entry.now }
{
    clap::Command::new(alloc, name)
        .disable_help_flag(true)
        .disable_version_flag(true)
}

fn with_options<'a>(
    alloc: Global,
    command: clap::Command<'a>,
    taking: Command,
) -> Result<clap::Command<'a>, AllocError>
    ensures { IfOk result (λ c. app_of c ≡ fold (option_added taking) (app_of command.entry) options) }
{
    let mut command = command;
    for option in CommandOption::all() {
        command = with_option(alloc, command, taking, option)?;
    }
    Ok(command)
}

/// The command with the option, where it takes it.
fn with_option<'a>(
    alloc: Global,
    command: clap::Command<'a>,
    taking: Command,
    option: &CommandOption,
) -> Result<clap::Command<'a>, AllocError>
    ensures { IfOk result (λ c. app_of c ≡ option_added taking (app_of command.entry) (option_row option.now)) }
{
    if option.is_for(taking) {
        command.arg(option_named(alloc, option.name))
    } else {
        Ok(command)
    }
}

fn option_named<'a>(alloc: Global, name: &'a str) -> Arg<'a>
    ensures rule { rule_of result ≡ text_option name.now }
    ensures local { result.global ≡ false }
{
    Arg::new(alloc, name).long(name).action(ArgAction::Set)
}

fn with_positionals<'a>(
    alloc: Global,
    command: clap::Command<'a>,
    positionals: &[Positional],
) -> Result<clap::Command<'a>, AllocError>
    ensures { IfOk result (λ c. app_of c ≡ fold positional_added (app_of command.entry) (map positional_row positionals.now)) }
{
    let mut command = command;
    for positional in positionals {
        command = with_positional(alloc, command, positional)?;
    }
    Ok(command)
}

fn with_positional<'a>(
    alloc: Global,
    command: clap::Command<'a>,
    positional: &Positional,
) -> Result<clap::Command<'a>, AllocError>
    ensures { IfOk result (λ c. app_of c ≡ positional_added (app_of command.entry) (positional_row positional.now)) }
{
    command.arg(text_by_place(alloc, positional))
}

fn text_by_place<'a>(alloc: Global, positional: &Positional) -> Arg<'a>
    ensures rule { rule_of result ≡ text_by_place (positional_row positional.now) }
    ensures local { result.global ≡ false }
{
    Arg::new(alloc, positional.name).required(positional.is_required)
}
