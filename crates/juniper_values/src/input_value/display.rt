//! Input values as text.
ghost use Rattle.std.specs.Prelude.{◌≡◌, ◌++◌, [], codes, if◌then◌else◌, Some};
ghost use Rattle.std.specs.Fmt.{WritesOnOk};
ghost use Rattle.std.specs.Str.{encode_utf8_all};
ghost use Rattle.juniper_values.specs.Display.{value_text, item_texts, field_texts, joined, separator};
ghost use Rattle.juniper_values.specs.ScalarDisplay.{scalar_display};
ghost use Rattle.juniper_values.specs.View.{view, view_items, view_fields, text_of};

use crate::input_value::InputValue;
use crate::scalar::{ScalarValue, write_scalar};
use juniper_tokens::Spanning;
use juniper_tokens::text::write_text;
use std::fmt;
use std::fmt::Write;

/// Displays the value in GraphQL's own form, except that texts are between quotes without escaping.
impl<S: ScalarValue> fmt::Display for InputValue<S> {
    ghost output = { λ v. Some (encode_utf8_all (value_text (scalar_display S.content S.str_in S.shown) (view (λ s. s) v))) };

    fn fmt<W: Write>(&self, f: &mut fmt::Formatter<W>) -> fmt::Result {
        write_value(f, self)
    }
}

#[cycle(display)]
fn write_value<S: ScalarValue, W: Write>(
    f: &mut fmt::Formatter<W>,
    value: &InputValue<S>,
) -> fmt::Result
    ensures { WritesOnOk W.write_str_gives f.old result
        (encode_utf8_all (value_text (scalar_display S.content S.str_in S.shown) (view (λ s. s) value.now))) f.new }
{
    match value {
        InputValue::Null => f.write_str("null"),
        InputValue::Scalar(scalar) => write_scalar(f, scalar),
        InputValue::Enum(name) => write_text(f, name.as_str()),
        InputValue::Variable(name) => {
            f.write_str("$")?;
            write_text(f, name.as_str())
        }
        InputValue::List(items) => {
            f.write_str("[")?;
            write_items(f, items)?;
            f.write_str("]")
        }
        InputValue::Object(fields) => {
            f.write_str("{")?;
            write_fields(f, fields)?;
            f.write_str("}")
        }
    }
}

#[cycle(display)]
#[tactic(auto, using(crate::proofs::Displays::none_written))]
fn write_items<S: ScalarValue, W: Write>(
    f: &mut fmt::Formatter<W>,
    items: &Vec<Spanning<InputValue<S>>>,
) -> fmt::Result
    ensures { WritesOnOk W.write_str_gives f.old result
        (encode_utf8_all (joined (item_texts (scalar_display S.content S.str_in S.shown) (view_items (λ s. s) items.now.items)))) f.new }
{
    let mut first = true;
    for item in items {
        write_separator(f, first)?;
        write_value(f, &item.item)?;
        first = false;
    }
    Ok(())
}

#[cycle(display)]
#[tactic(auto, using(crate::proofs::Displays::none_written))]
fn write_fields<S: ScalarValue, W: Write>(
    f: &mut fmt::Formatter<W>,
    fields: &Vec<(Spanning<String>, Spanning<InputValue<S>>)>,
) -> fmt::Result
    ensures { WritesOnOk W.write_str_gives f.old result
        (encode_utf8_all (joined (field_texts (scalar_display S.content S.str_in S.shown) (view_fields (λ s. s) fields.now.items)))) f.new }
{
    let mut first = true;
    for field in fields {
        write_separator(f, first)?;
        write_key(f, &field.0.item)?;
        write_value(f, &field.1.item)?;
        first = false;
    }
    Ok(())
}

// Writes what stands before an item or a field.
fn write_separator<W: Write>(f: &mut fmt::Formatter<W>, first: bool) -> fmt::Result
    ensures { WritesOnOk W.write_str_gives f.old result (encode_utf8_all (separator first)) f.new }
{
    if first {
        return Ok(());
    }
    f.write_str(", ")
}

fn write_key<W: Write>(f: &mut fmt::Formatter<W>, key: &String) -> fmt::Result
    ensures { WritesOnOk W.write_str_gives f.old result (encode_utf8_all (text_of key.now ++ codes ": ")) f.new }
{
    write_text(f, key.as_str())?;
    f.write_str(": ")
}
