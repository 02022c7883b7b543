//! What the node of a scalar tells besides the scalar's text.
ghost use Rattle.std.specs.Prelude.{◌≡◌, []};
ghost use Rattle.std.specs.Option.{unwrap_or};
ghost use Rattle.juniper_nodes.specs.Literal.{str_in};
ghost use Rattle.firthnapkin_results.specs.Scalars.{content_of, scalar_content};

use crate::scalar::SourceScalar;
use juniper_values::DefaultScalarValue;

/// A scalar without its text.
#[derive(Clone, Copy)]
pub(crate) enum ScalarForm {
    /// An Int of 32 bits.
    Int(i32),
    /// An Int beyond 32 bits.
    LargeInt,
    /// A Float.
    Float,
    /// A String.
    String,
    /// A block string.
    BlockString,
    /// A Boolean.
    Boolean(bool),
}

/// The form of a scalar.
pub(crate) fn form_of(scalar: &SourceScalar) -> ScalarForm
    ensures { content_of (unwrap_or (str_in (scalar_content scalar.now)) []) result ≡ scalar_content scalar.now }
{
    match scalar {
        SourceScalar::Default(DefaultScalarValue::Int(number)) => ScalarForm::Int(*number),
        SourceScalar::Default(DefaultScalarValue::String(_)) => ScalarForm::String,
        SourceScalar::Default(DefaultScalarValue::Boolean(truth)) => ScalarForm::Boolean(*truth),
        SourceScalar::LargeInt => ScalarForm::LargeInt,
        SourceScalar::Float => ScalarForm::Float,
        SourceScalar::BlockString(_) => ScalarForm::BlockString,
    }
}
