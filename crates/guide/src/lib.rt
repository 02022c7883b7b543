//! The code of docs/GUIDE.md: what a caller does with a text, as functions that are proved. Rows call each of them.
#![tactic(auto)]

mod arguments;
mod compare;
mod documents;
mod executor;
mod faults;
mod json;
mod kept;
mod limiter;
mod limits;
mod names;
mod rules;
mod store;
mod walk;

pub use arguments::argument_value;
pub use compare::same_literal;
pub use documents::is_document;
pub use executor::{AnswerFailure, answer_json};
pub use faults::fault_line;
pub use kept::kept_up_to;
pub use limiter::{CostFailure, parse_affordable};
pub use limits::is_document_within;
pub use names::definition_names;
pub use rules::broken_rules;
pub use store::{Store, store_query, stored_query};
pub use walk::field_names;
