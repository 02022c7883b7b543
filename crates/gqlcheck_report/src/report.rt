//! The whole work of the program, over any reader and writer.
ghost use Rattle.std.specs.Prelude.{◌≡◌, ℕ, ◌↔◌, ◌⊎◌, true, false, List, take, IfOk, string_bytes};
ghost use Rattle.std.specs.Io.KnownBytes.{Appends, Consumes, IsAtEnd, Keeps};
ghost use Rattle.streams.specs.Watched.{inner_of, has_failed};
ghost use Rattle.juniper_tokens.specs.Errors.{view_fault};
ghost use Rattle.juniper_tokens.specs.Spans.{view_span};
ghost use Rattle.gqlcheck_report.specs.Report.{Report, OneReport, IsReportEnd, fault_line, deep_line};

use crate::lines::document_text;
use juniper_documents::laws::{document_or_fault, one_answer_within, one_too_deep};
use juniper_documents::{DEFAULT_DEPTH, DepthFailure, parse_document_source_within};
use juniper_tokens::{ParseError, ParseFailure, Span, Spanning};
use juniper_values::DefaultScalarValue;
use std::alloc::{AllocError, Global};
use std::io::{Read, Write};
use streams::{ReportEnd, Stop, Watched};

/// How a run ended, and what it has then written.
#[derive(Clone, Copy, Debug, PartialEq, Eq)]
pub enum RunEnd {
    /// The bytes are a document: a line for each part of its tree.
    Tree,
    /// The bytes are UTF-8 but not a document: the error and its position.
    Refused,
    /// The bytes are not UTF-8: a line that says so.
    NotUtf8,
    /// A token of the text is nested deeper than 200 brackets, and those before it begin a document: its position.
    TooDeep,
    /// A read or a write failed: after a failed read nothing, after a failed write a prefix of the report.
    Device,
    /// Memory ran out: nothing.
    Memory,
}

// The limit on the nesting of brackets.
const LIMIT: usize = DEFAULT_DEPTH;

const NOT_UTF8: &str = "Not UTF-8\n";

/// Reads all of the reader, and writes the report of its bytes.
///
/// The report is a function of the bytes. It is built whole before any of it is written. If the reader neither ends nor
/// fails, memory runs out. Condition: neither the reader nor the writer has failed yet.
pub fn run<R: Read, W: Write>(
    alloc: Global,
    reader: &mut Watched<R>,
    writer: &mut Watched<W>,
) -> RunEnd
    requires sound_reader { has_failed reader.old ≡ false }
    requires sound_writer { has_failed writer.old ≡ false }
    ensures reported { IsReportEnd result → (bytes : List ℕ)
        × Consumes (R.remaining (inner_of reader.old)) (R.remaining (inner_of reader.new)) bytes
        × IsAtEnd (R.remaining (inner_of reader.new))
        × ((text : List ℕ) × Report bytes result text
        × Appends (W.contents (inner_of writer.old)) (W.contents (inner_of writer.new)) text) }

    // Bytes have one report, so this one is theirs.
    ensures one_report { OneReport }
    ensures device { (result ≡ RunEnd.Device)
        ↔ ((has_failed reader.new ≡ true) ⊎ (has_failed writer.new ≡ true)) }

    // After a failed write a prefix of the report has been written.
    ensures failed_write { has_failed writer.new ≡ true → (bytes : List ℕ)
        × Consumes (R.remaining (inner_of reader.old)) (R.remaining (inner_of reader.new)) bytes
        × IsAtEnd (R.remaining (inner_of reader.new))
        × ((end : RunEnd) × (text : List ℕ) × Report bytes end text
        × ((n : ℕ) × Appends (W.contents (inner_of writer.old)) (W.contents (inner_of writer.new)) (take n text))) }

    // After a failed read, and if memory ran out, nothing has.
    ensures failed_read { has_failed reader.new ≡ true
        → Keeps (W.contents (inner_of writer.old)) (W.contents (inner_of writer.new)) }
    ensures memory { result ≡ RunEnd.Memory
        → Keeps (W.contents (inner_of writer.old)) (W.contents (inner_of writer.new)) }
{
    match streams::run(alloc, reader, writer) {
        Ok(end) => end,
        Err(Stop::Device) => RunEnd::Device,
        Err(Stop::Memory) => RunEnd::Memory,
    }
}

impl ReportEnd for RunEnd {
    ghost reports = { Report };

    fn report(alloc: Global, bytes: &[u8]) -> Result<(RunEnd, String), AllocError> {
        let Ok(source) = std::str::from_utf8(bytes) else {
            return Ok((RunEnd::NotUtf8, String::from_str(alloc, NOT_UTF8)?));
        };
        match parse_document_source_within::<DefaultScalarValue>(alloc, source, LIMIT) {
            Ok(document) => Ok((RunEnd::Tree, document_text(alloc, &document)?)),
            Err(DepthFailure::Parse(ParseFailure::Refused(fault))) => {
                Ok((RunEnd::Refused, fault_text(alloc, &fault)?))
            }
            Err(DepthFailure::TooDeep(span)) => Ok((RunEnd::TooDeep, deep_text(alloc, span)?)),
            Err(DepthFailure::Parse(ParseFailure::Memory)) => Err(AllocError),
        }
    }

    // A text within the limit has one tree or one fault, and any other has one token that is nested too deep.
    fn one_report() {
        document_or_fault::<DefaultScalarValue>();
        one_too_deep::<DefaultScalarValue>();
        one_answer_within::<DefaultScalarValue>();
    }
}

// The line that reports the position at which a text is nested too deep.
fn deep_text(alloc: Global, span: Span) -> Result<String, AllocError>
    ensures { IfOk result (λ text. string_bytes text ≡ deep_line (view_span span)) }
{
    let start = span.start;
    format!(in alloc; "Too deeply nested. At {start}\n")
}

// The line that reports a fault.
fn fault_text(alloc: Global, fault: &Spanning<ParseError>) -> Result<String, AllocError>
    ensures { IfOk result (λ text. string_bytes text ≡ fault_line (view_fault fault.now)) }
{
    format!(in alloc; "{fault}\n")
}
