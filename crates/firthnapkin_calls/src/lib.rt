//! The parser for callers in C and through C: the calls of `include/firthnapkin.h`. `firthnapkin_results` has what they
//! do.
#![tactic(auto)]

mod canonical;
mod count;
mod excerpt;
mod message;
mod parse;
mod parse_complexities;
mod parse_type;
mod parse_value;
mod reported;
mod tokens;
mod version;
