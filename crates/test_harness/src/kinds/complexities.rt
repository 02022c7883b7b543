//! The complexities of a document's operations, a line each.

use crate::parsing::{Document, document};
use crate::write::{Written, write_refusal, write_spread};
use juniper_complexity::{OperationComplexity, operation_complexities};
use std::alloc::Global;

/// `complexities`: of each operation its index among the definitions, its fields, aliases, directives and root fields,
/// and its depth; or the first spread that can't be expanded.
pub fn write_complexities(alloc: Global, out: &mut String, text: &str) -> Written {
    match document(alloc, text) {
        Ok(document) => write_expanded(alloc, out, document),
        Err(failure) => write_refusal(out, failure),
    }
}

fn write_expanded(alloc: Global, out: &mut String, document: Document<'_>) -> Written {
    match operation_complexities(alloc, &document) {
        Ok(complexities) => write_each(out, &complexities),
        Err(failure) => {
            write_spread(out, failure)?;
            out.push('\n')
        }
    }
}

fn write_each(out: &mut String, complexities: &[OperationComplexity]) -> Written {
    for operation in complexities {
        write_one(out, operation)?;
    }
    Ok(())
}

fn write_one(out: &mut String, operation: &OperationComplexity) -> Written {
    let index = operation.definition;
    let fields = operation.complexity.fields;
    let aliases = operation.complexity.aliases;
    let directives = operation.complexity.directives;
    let roots = operation.complexity.root_fields;
    let depth = operation.complexity.depth;
    writeln!(
        out,
        "{index}: {fields} {aliases} {directives} {roots} {depth}"
    )
}
