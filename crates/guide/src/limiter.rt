//! A limiter: what a server accepts before it executes anything.
ghost use Rattle.std.specs.Prelude.{◌≡◌, None, IfSome, IfOk, IfErr};
ghost use Rattle.std.specs.Str.{chars};
ghost use Rattle.juniper_values.specs.Default.{default_content};
ghost use Rattle.juniper_tree.specs.View.{view_document};
ghost use Rattle.guide.specs.Affordable.{IsAffordable, IsFirstAbove, IsUnaffordable, NoneAbove};

use juniper::{
    DefaultScalarValue, LimitFailure, Limits, OwnedDocument, parse_document_source_limited,
};
use juniper_complexity::{ComplexityFailure, OperationComplexity, operation_complexities};
use std::alloc::Global;

/// Why a server doesn't execute a request.
#[derive(Debug, Drop)]
pub enum CostFailure {
    /// The text has no tree within the limits, or memory ran out.
    Text(LimitFailure),
    /// A spread can't be expanded, or memory ran out.
    Spread(ComplexityFailure),
    /// The definition at this index is the first operation with too many fields.
    Operation(usize),
}

/// The document of a text within limits. Each operation has at most `most` fields, with its fragments expanded.
pub fn parse_affordable<'a>(
    alloc: Global,
    source: &'a str,
    limits: Limits,
    most: u64,
) -> Result<OwnedDocument<'a, DefaultScalarValue>, CostFailure>
    ensures accepted { IfOk result (λ tree. IsAffordable limits most (chars source.now) (view_document default_content tree)) }
    ensures refused { IfErr result (IsUnaffordable limits most (chars source.now)) }
{
    let document = match parse_document_source_limited(alloc, source, limits) {
        Ok(document) => document,
        Err(failure) => return Err(CostFailure::Text(failure)),
    };
    let complexities = match operation_complexities(alloc, &document) {
        Ok(complexities) => complexities,
        Err(failure) => return Err(CostFailure::Spread(failure)),
    };
    if let Some(definition) = first_above(&complexities, most) {
        return Err(CostFailure::Operation(definition));
    }
    Ok(document)
}

// The definition of the first operation with more fields.
fn first_above(complexities: &[OperationComplexity], most: u64) -> Option<usize>
    ensures none { result ≡ None → NoneAbove most complexities.now }
    ensures some { IfSome result (IsFirstAbove most complexities.now) }
{
    for i in 0..complexities.len() {
        if most < complexities[i].complexity.fields {
            return Some(complexities[i].definition);
        }
    }
    None
}
