//! Laws of source texts, of displays and of views: the contracts of functions that do nothing. A function whose proof needs
//! one calls it.
//!
//! The laws of the token grammar, of the document grammar, of tokens, of input values and of answer values are in
//! modules of their own.
pub use graphql_grammar::laws as grammar;
pub use graphql_lexical::laws as lexical;
pub use graphql_lexical::laws::one_cut_or_break;
pub use juniper_answers::laws as answers;
pub use juniper_documents::laws::{
    alike_texts, document_or_fault, lexer_failures_are_reported, limits_are_compared_whole,
    one_answer_limited, one_answer_within, one_too_deep, refusals_by_clauses,
};
pub use juniper_tokens::laws as tokens;
pub use juniper_tree::laws::{
    arguments_are_compared_whatever_their_places, kinds_are_compared_apart,
    parts_are_compared_whole, scalar_tokens, selections_are_seen, type_display_is_read_back,
    value_display_is_read_back, values_are_seen,
};
pub use juniper_values::laws as values;
