//! Answer values as text.
ghost use Rattle.std.specs.Prelude.{◌++◌, codes, Some};
ghost use Rattle.std.specs.Fmt.{WritesOnOk};
ghost use Rattle.std.specs.Str.{chars, encode_utf8_all};
ghost use Rattle.graphql_lexical.specs.Display.{quoted};
ghost use Rattle.juniper_values.specs.Display.{joined, separator};
ghost use Rattle.juniper_values.specs.ScalarDisplay.{scalar_display};
ghost use Rattle.juniper_answers.specs.Display.{data_text, item_texts, field_texts};
ghost use Rattle.juniper_answers.specs.View.{shape, items_view, fields_view, pairs};

use crate::value::{Object, Value};
use juniper_values::{Scalar, ScalarValue};
use std::fmt;
use std::fmt::Write;

/// Displays the value in JSON's form (GraphQL specification, October 2021, section 7.2.1), except that texts and keys
/// are between quotes without escaping.
impl<S: ScalarValue> fmt::Display for Value<S> {
    ghost output = { λ v. Some (encode_utf8_all (data_text (scalar_display S.content S.str_in S.shown) (shape v))) };

    fn fmt<W: Write>(&self, f: &mut fmt::Formatter<W>) -> fmt::Result {
        write_value(f, self)
    }
}

#[cycle(display)]
fn write_value<S: ScalarValue, W: Write>(f: &mut fmt::Formatter<W>, value: &Value<S>) -> fmt::Result
    ensures { WritesOnOk W.write_str_gives f.old result
        (encode_utf8_all (data_text (scalar_display S.content S.str_in S.shown) (shape value.now))) f.new }
{
    match value {
        Value::Null => f.write_str("null"),
        Value::Scalar(scalar) => write_scalar(f, scalar),
        Value::List(items) => {
            f.write_str("[")?;
            write_items(f, items)?;
            f.write_str("]")
        }
        Value::Object(object) => {
            f.write_str("{")?;
            write_fields(f, object)?;
            f.write_str("}")
        }
    }
}

#[cycle(display)]
#[tactic(auto, using(juniper_values::proofs::Public::none_written))]
fn write_items<S: ScalarValue, W: Write>(
    f: &mut fmt::Formatter<W>,
    items: &Vec<Value<S>>,
) -> fmt::Result
    ensures { WritesOnOk W.write_str_gives f.old result
        (encode_utf8_all (joined (item_texts (scalar_display S.content S.str_in S.shown) (items_view (λ s. s) items.now.items)))) f.new }
{
    let mut first = true;
    for item in items {
        write_separator(f, first)?;
        write_value(f, item)?;
        first = false;
    }
    Ok(())
}

#[cycle(display)]
fn write_fields<S: ScalarValue, W: Write>(
    f: &mut fmt::Formatter<W>,
    object: &Object<S>,
) -> fmt::Result
    ensures { WritesOnOk W.write_str_gives f.old result
        (encode_utf8_all (joined (field_texts (scalar_display S.content S.str_in S.shown) (fields_view (λ s. s) (pairs object.now))))) f.new }
{
    let mut first = true;
    for (key, value) in object.iter() {
        write_separator(f, first)?;
        write_key(f, key.as_str())?;
        write_value(f, value)?;
        first = false;
    }
    Ok(())
}

// Writes a text between quotes, without escaping, and any other scalar by its own display.
fn write_scalar<S: ScalarValue, W: Write>(f: &mut fmt::Formatter<W>, scalar: &S) -> fmt::Result
    ensures { WritesOnOk W.write_str_gives f.old result
        (encode_utf8_all (scalar_display S.content S.str_in S.shown scalar.now)) f.new }
{
    let shown = Scalar::from(scalar);
    write!(f, "{shown}")
}

// Writes what stands before an item or a field.
fn write_separator<W: Write>(f: &mut fmt::Formatter<W>, first: bool) -> fmt::Result
    ensures { WritesOnOk W.write_str_gives f.old result (encode_utf8_all (separator first)) f.new }
{
    if first {
        return Ok(());
    }
    f.write_str(", ")
}

fn write_key<W: Write>(f: &mut fmt::Formatter<W>, key: &str) -> fmt::Result
    ensures { WritesOnOk W.write_str_gives f.old result (encode_utf8_all (quoted (chars key.now) ++ codes ": ")) f.new }
{
    write!(f, "\"{key}\": ")
}
