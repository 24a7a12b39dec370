//! The mutual templates and the relation templates, of two activities.
#![tactic(auto)]

mod alternate_precedence;
mod alternate_response;
mod alternate_succession;
mod chain_precedence;
mod chain_response;
mod chain_succession;
mod co_existence;
mod precedence;
mod responded_existence;
mod response;
mod succession;

pub use alternate_precedence::AlternatePrecedence;
pub use alternate_response::AlternateResponse;
pub use alternate_succession::AlternateSuccession;
pub use chain_precedence::ChainPrecedence;
pub use chain_response::ChainResponse;
pub use chain_succession::ChainSuccession;
pub use co_existence::CoExistence;
pub use precedence::Precedence;
pub use responded_existence::RespondedExistence;
pub use response::Response;
pub use succession::Succession;

#[cfg(test)]
mod tests;
