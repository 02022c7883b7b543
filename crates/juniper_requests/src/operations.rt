//! The operation of a document that is executed.
ghost use Rattle.std.specs.Prelude.{◌≡◌, map, option_map};
ghost use Rattle.std.specs.List.{filter, find};
ghost use Rattle.std.specs.Str.{chars};
ghost use Rattle.juniper_tree.specs.View.{view_word, view_definition};
ghost use Rattle.juniper_complexity.specs.Parts.{is_operation};
ghost use Rattle.juniper_requests.specs.Operations.{has_name, is_operation_named, the_only, or_unknown, get_operation, view_found};

use juniper_tokens::Spanning;
use juniper_tokens::text::same_text;
use juniper_tree::{Definition, Operation};
use juniper_values::ScalarValue;

/// Why a document has no operation that is executed.
#[derive(Clone, Copy, Debug, PartialEq, Eq)]
pub enum OperationFailure {
    /// A name is given, and no operation has it.
    Unknown,
    /// No name is given, and there are several operations.
    Several,
    /// No name is given, and there is no operation.
    NoOperation,
}

/// Returns the operation of a document that is executed, by `GetOperation` (GraphQL specification, October 2021,
/// section 6.1): that of the name, or the only one if no name is given. Otherwise returns why there is none.
///
/// If several operations have the name, which validation forbids (section 5.2.1.1), returns the first. An operation
/// without a name is returned only if no name is given.
///
/// ```
/// // of `query A { a } query B { b }`: B; without a name, `OperationFailure::Several`
/// let operation = operation_named(&document, Some("B"))?;
/// ```
pub fn operation_named<'t, 'a, S: ScalarValue>(
    document: &'t [Definition<'a, S>],
    name: Option<&str>,
) -> Result<&'t Spanning<Operation<'a, S>>, OperationFailure>
    ensures { view_found S.content result ≡ get_operation (map (view_definition S.content) document.now) (option_map (λ t. chars t.now) name.entry) }
{
    match name {
        Some(name) => first_named(document, name),
        None => only_one(document),
    }
}

fn has_name(own: &Option<Spanning<&str>>, name: &str) -> bool
    ensures { result ≡ has_name (chars name.now) (option_map view_word own.now) }
{
    match own {
        None => false,
        Some(own) => same_text(own.item, name),
    }
}

fn first_named<'t, 'a, S: ScalarValue>(
    document: &'t [Definition<'a, S>],
    name: &str,
) -> Result<&'t Spanning<Operation<'a, S>>, OperationFailure>
    ensures { view_found S.content result ≡ or_unknown (find (is_operation_named (chars name.now)) (map (view_definition S.content) document.now)) }
{
    for definition in document {
        if let Definition::Operation(operation) = definition {
            if has_name(&operation.item.name, name) {
                return Ok(operation);
            }
        }
    }
    Err(OperationFailure::Unknown)
}

fn only_one<'t, 'a, S: ScalarValue>(
    document: &'t [Definition<'a, S>],
) -> Result<&'t Spanning<Operation<'a, S>>, OperationFailure>
    ensures { view_found S.content result ≡ the_only (filter is_operation (map (view_definition S.content) document.now)) }
{
    let mut found: Option<&'t Spanning<Operation<'a, S>>> = None;
    for definition in document {
        if let Definition::Operation(operation) = definition {
            if found.is_some() {
                return Err(OperationFailure::Several);
            }
            found = Some(operation);
        }
    }
    found.ok_or(OperationFailure::NoOperation)
}
