//! What a program is asked by its only argument.
ghost use Rattle.std.specs.Prelude.{◌≡◌, ◌↔◌, Some, codes};

use std::env::{Env, FillError};

// The length of the longest argument that asks for something.
const LONGEST: usize = 9;

/// What a program prints about itself, and then ends.
#[derive(Clone, Copy, Debug, PartialEq, Eq)]
pub enum Question {
    /// How it is used.
    Help,
    /// Its name and version.
    Version,
}

impl Question {
    /// Returns what this argument asks for, or None if it is another word.
    pub fn of(argument: &[u8]) -> Option<Question>
        ensures help { result ≡ Some Question.Help ↔ argument.now ≡ codes "--help" }
        ensures version { result ≡ Some Question.Version ↔ argument.now ≡ codes "--version" }
    {
        if argument == b"--help".as_slice() {
            Some(Question::Help)
        } else if argument == b"--version".as_slice() {
            Some(Question::Version)
        } else {
            None
        }
    }

    /// Returns what a program is asked for, if it has one argument and that asks for something. Takes no memory.
    pub fn asked<E: Env>(env: &E) -> Option<Question> {
        let mut argument = [0u8; LONGEST];
        match env.arg(2, &mut argument) {
            Err(FillError::NotPresent) => {}
            _ => return None,
        }
        match env.arg(1, &mut argument) {
            Ok(length) => Question::of(&argument[..length]),
            Err(_) => None,
        }
    }
}
