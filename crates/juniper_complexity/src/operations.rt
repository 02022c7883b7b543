//! The complexities of a document's operations.
ghost use Rattle.std.specs.Prelude.{IfOk, List, map};
ghost use Rattle.graphql_grammar.specs.Tree.{Definition as Seen};
ghost use Rattle.juniper_values.specs.Scalar.{Content};
ghost use Rattle.juniper_tree.specs.View.{view_definition};
ghost use Rattle.juniper_complexity.specs.Faults.{OperationsHave, FailsWithFirstFault};
ghost use Rattle.juniper_complexity.specs.Gathered.{AreGathered};

use crate::tree_outlines::tree_outlines;
use juniper_outlines::{
    ComplexityFailure, DefinitionOutline, OperationComplexity, have_no_spreads,
    outlined_complexities, own_complexities,
};
use juniper_tree::Definition;
use juniper_values::ScalarValue;
use std::alloc::Global;

/// Returns the complexity of each operation of a document, in the order of the text, with every fragment spread expanded
/// (GraphQL specification, October 2021, section 2.8). If several fragments have one name, the first is expanded.
///
/// If a spread can't be expanded, returns `ComplexityFailure::Unknown` or `ComplexityFailure::Cycle` with its span. It
/// is the first such spread for a reader who begins with the first operation, and goes through each spread's fragment
/// before going on after the spread. A fragment that no operation reaches is never looked into. If memory runs out,
/// returns `ComplexityFailure::Memory`.
///
/// No fragment is expanded twice: time and memory grow with the document, and not with the numbers returned, except
/// that the name of each fragment and each spread is looked up in an ordered map. Takes stack in proportion to the
/// nesting of selection sets, whatever the chains of spreads.
///
/// ```
/// for operation in &operation_complexities(alloc, &document)? {
///     if operation.complexity.fields > 1_000 {
///         return refuse(operation.definition);
///     }
/// }
/// ```
pub fn operation_complexities<'a, S: ScalarValue>(
    alloc: Global,
    document: &[Definition<'a, S>],
) -> Result<Vec<OperationComplexity>, ComplexityFailure>
    ensures complexities { let definitions = map (view_definition S.content) document.now in IfOk result (λ complexities. OperationsHave definitions 0 definitions complexities.items) }
    ensures failure { FailsWithFirstFault (map (view_definition S.content) document.now) result }
{
    let definitions = tree_outlines(alloc, document)?;
    if have_no_spreads(&definitions) {
        return Ok(own_complexities(alloc, &definitions)?);
    }
    gathered_complexities(alloc, &definitions)
}

/// The same of a document whose definitions were gathered while it was parsed, as `OutlineBuilder` gathers them.
pub fn gathered_complexities(
    alloc: Global,
    definitions: &[DefinitionOutline<'_>],
) -> Result<Vec<OperationComplexity>, ComplexityFailure>
    ensures complexities { (document : List (Seen Content)) → AreGathered definitions.now document → IfOk result (λ complexities. OperationsHave document 0 document complexities.items) }
    ensures failure { (document : List (Seen Content)) → AreGathered definitions.now document → FailsWithFirstFault document result }
{
    outlined_complexities(alloc, definitions)
}
