//! Templates as regular expressions: their forms, what a form matches, and how it is printed.
#![tactic(auto)]

mod copying;
mod counted;
mod derivatives;
mod empty;
mod existence;
mod form;
mod kinds;
mod matching;
mod mutual;
mod negative;
mod printing;
mod relation;
mod same;
mod shapes;

pub use form::Form;
pub use kinds::form_of;
pub use matching::matches;
pub use printing::print;

#[cfg(test)]
mod tests;
