//! What is reported of the bytes that are read.
ghost use Rattle.std.specs.Prelude.{◌≡◌, IfOk, string_bytes};
ghost use Rattle.juniper_tokens.specs.Errors.{view_lexer_error};
ghost use Rattle.gqlcanon.specs.Report.{Report, fault_line};

use graphql_lexical::laws::one_cut_or_break;
use juniper_canonical::canonical_text;
use juniper_tokens::{LexFailure, LexerError, Spanning};
use std::alloc::{AllocError, Global};
use streams::ReportEnd;

/// How the report on some bytes ends.
#[derive(Clone, Copy, Debug, PartialEq, Eq)]
pub enum CanonicalEnd {
    /// The bytes are a text that can be tokenized: its canonical text.
    Text,
    /// The bytes are UTF-8 but can't be tokenized: the first lexical error and its position.
    Refused,
    /// The bytes are not UTF-8: a line that says so.
    NotUtf8,
}

const NOT_UTF8: &str = "Not UTF-8\n";

impl ReportEnd for CanonicalEnd {
    ghost reports = { Report };

    fn report(alloc: Global, bytes: &[u8]) -> Result<(CanonicalEnd, String), AllocError> {
        let Ok(source) = std::str::from_utf8(bytes) else {
            return Ok((CanonicalEnd::NotUtf8, String::from_str(alloc, NOT_UTF8)?));
        };
        match canonical_text(alloc, source) {
            Ok(text) => Ok((CanonicalEnd::Text, text)),
            Err(LexFailure::Fault(fault)) => {
                Ok((CanonicalEnd::Refused, fault_text(alloc, &fault)?))
            }
            Err(LexFailure::Memory) => Err(AllocError),
        }
    }

    // A text has one tokenization, or one lexical error.
    fn one_report() {
        one_cut_or_break();
    }
}

// The line that reports a fault.
fn fault_text(alloc: Global, fault: &Spanning<LexerError>) -> Result<String, AllocError>
    ensures { IfOk result (λ text. string_bytes text ≡ fault_line (view_lexer_error fault.now.item) fault.now.span.start) }
{
    format!(in alloc; "{fault}\n")
}
