//! The value of a field's argument.
ghost use Rattle.std.specs.Prelude.{◌≡◌, IfOk, option_map};
ghost use Rattle.juniper_values.specs.View.{view, values_in};
ghost use Rattle.guide.specs.ArgumentValues.{argument_value};

use juniper::{Field, InputValue, ScalarValue, Variables};
use std::alloc::{AllocError, Global};

/// The value of a field's first argument of a name, each variable in it replaced by its value.
///
/// Returns None if no argument has this name, or if it is a variable that has no value.
pub fn argument_value<S: ScalarValue>(
    alloc: Global,
    field: &Field<'_, S>,
    name: &str,
    variables: &Variables<S>,
) -> Result<Option<InputValue<S>>, AllocError>
    ensures { IfOk result (λ value. option_map (view S.content) value ≡ argument_value S.content (values_in S.content variables.now) name.now field.now.arguments) }
{
    let Some(arguments) = &field.arguments else {
        return Ok(None);
    };
    let Some(value) = arguments.item.get(name) else {
        return Ok(None);
    };
    value.item.try_clone(alloc)?.into_const(alloc, variables)
}
