//! The negative templates, of two activities.
#![tactic(auto)]

mod not_chain_precedence;
mod not_chain_response;
mod not_chain_succession;
mod not_co_existence;
mod not_precedence;
mod not_responded_existence;
mod not_response;
mod not_succession;

pub use not_chain_precedence::NotChainPrecedence;
pub use not_chain_response::NotChainResponse;
pub use not_chain_succession::NotChainSuccession;
pub use not_co_existence::NotCoExistence;
pub use not_precedence::NotPrecedence;
pub use not_responded_existence::NotRespondedExistence;
pub use not_response::NotResponse;
pub use not_succession::NotSuccession;
