//! What the program for tests does: `calls` makes calls of the library on a text and reports what they return, of the
//! kinds that `kinds` has. `speed` measures how fast a text is read.
#![tactic(auto)]

pub mod calls;
pub mod kinds;
mod parses;
mod parsing;
pub mod speed;
mod write;
