//! A parse of a document, reported as it comes.

use crate::parsing::{Document, document_within};
use juniper::{
    DefaultScalarValue, Definition, DefinitionSink, LimitFailure, Limits, ParseFailure,
    parse_document_source_into,
};
use std::alloc::{AllocError, Global};
use std::io;

// The number of definitions that were given.
#[derive(Drop)]
struct Given(usize);

impl DefinitionSink<DefaultScalarValue> for Given {
    ghost use Rattle.std.specs.Prelude.{OnOk, OnErr, ◌∷◌, []};
    ghost use Rattle.juniper_documents.specs.Sinks.{Gains};
    ghost use Rattle.juniper_tree.specs.View.{view_definition};
    ghost use Rattle.juniper_values.specs.Default.{default_content};
    ghost use Rattle.juniper_values.specs.Scalar.{Content};

    // Nothing is said of what it was given.
    ghost holds = { λ _ _ _. Unit {0} };

    fn take(&mut self, definition: Definition<'_, DefaultScalarValue>) -> Result<(), AllocError>
        ensures taken { OnOk result (Gains (λ _ _ _. Unit {0}) self.old self.new
            (view_definition default_content definition.entry ∷ [])) }
        ensures kept { OnErr result (Gains {C = Content} (λ _ _ _. Unit {0}) self.old self.new []) }
    {
        self.0 = self.0.saturating_add(1);
        Ok(())
    }
}

// The tree of a text, within a limit on nesting where the word is a number.
fn parsed<'a>(alloc: Global, word: &str, text: &'a str) -> Result<Document<'a>, LimitFailure> {
    document_within(alloc, text, word.parse::<usize>().ok(), None)
}

// Whether another parse gives the same tree.
fn is_same<'a>(alloc: Global, word: &str, text: &'a str, document: Document<'a>) -> bool {
    match parsed(alloc, word, text) {
        Ok(other) => document == other,
        Err(_) => false,
    }
}

/// Writes whether the text has a tree, and then whether another parse gives the same one. The second line that is
/// written says that the first parse is over. With the word `into` it writes how many definitions were given, after the
/// fault where there is one.
pub fn tell<R: Print + AllocGlobal>(rt: &R, word: &str, text: &str) -> io::Result<()> {
    println!(rt; "calling")?;
    if word == "into" {
        return tell_given(rt, text);
    }
    match parsed(rt.alloc(), word, text) {
        Ok(document) => {
            let count = document.len();
            println!(rt; "{count} definitions")?;
            let is_same = is_same(rt.alloc(), word, text, document);
            println!(rt; "the same tree again: {is_same}")
        }
        Err(failure) => tell_failure(rt, &failure),
    }
}

fn tell_given<R: Print + AllocGlobal>(rt: &R, text: &str) -> io::Result<()> {
    let mut given = Given(0);
    let answer = parse_document_source_into::<DefaultScalarValue, Given>(
        rt.alloc(),
        text,
        Limits::default(),
        &mut given,
    );
    if let Err(failure) = &answer {
        tell_failure(rt, failure)?;
    }
    let count = given.0;
    println!(rt; "{count} definitions")
}

fn tell_failure<R: Print + AllocGlobal>(rt: &R, failure: &LimitFailure) -> io::Result<()> {
    match failure {
        LimitFailure::Parse(ParseFailure::Refused(fault)) => println!(rt; "{fault}"),
        LimitFailure::Parse(ParseFailure::Memory) => println!(rt; "Memory"),
        LimitFailure::TooDeep(span) => {
            let start = span.start;
            println!(rt; "Too deeply nested. At {start}")
        }
        LimitFailure::TooMany(span) => {
            let start = span.start;
            println!(rt; "Too many tokens. At {start}")
        }
    }
}
