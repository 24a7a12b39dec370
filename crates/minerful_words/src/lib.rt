//! The words of the command line, and the settings that they give.
#![tactic(auto)]

mod choices;
mod clap_command;
mod grammars;
mod limits;
mod settings;
mod table;
mod templates;

pub use log_columns::{Columns, OrderAs};
pub use settings::{Command, Format, Out, Settings, Stage};
