//! Reports as JSON values, their texts, and the models that are read back.
#![tactic(auto)]

mod certificates;
mod chain_values;
mod claims;
mod constraints;
mod decisions;
mod items;
mod known;
mod laws;
mod links;
mod lists;
mod reading;
mod report;
mod shapes;
mod text;

pub use certificates::read_certificate;
pub use chain_values::certificate_value;
pub use constraints::trace_value;
pub use decisions::{is_tested, staying};
pub use known::KnownModel;
pub use laws::{
    models_are_within, refusals_are_of_models, report_texts_read_back, reports_are_shallow,
    reports_have_no_float, reports_read_back,
};
pub use reading::read_model;
pub use report::{consistent_value, report_value, scores_value};
pub use text::text_of;
