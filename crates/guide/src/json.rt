//! Answer values as JSON.
ghost use Rattle.std.specs.Prelude.{Some, IfOk, OnOk, string_bytes};
ghost use Rattle.serde_json.specs.Sent.{IsTextOf};
ghost use Rattle.juniper_values.specs.Default.{default_content};
ghost use Rattle.juniper_answers.specs.View.{view, items_view, fields_view, pairs};
ghost use Rattle.juniper_answers.specs.Data as parts;
ghost use Rattle.serde.specs.Event.{Logs};
ghost use Rattle.guide.specs.Json.{Grows, events, scalar_event};

use juniper::{DefaultScalarValue, Object, Value};
use serde::{Described, Serialize, Serializer};
use std::alloc::Global;

type Scalar = DefaultScalarValue;

/// The JSON text of an answer: each scalar, item and field once, in order.
pub(crate) fn json_text(alloc: Global, answer: &Value<Scalar>) -> Result<String, serde_json::Error>
    ensures { IfOk result (λ text. IsTextOf (Some (events (view default_content answer.now))) (string_bytes text)) }
{
    serde_json::to_string(alloc, &Json { answer })
}

// An answer that is written as JSON.
#[derive(Drop)]
struct Json<'v> {
    answer: &'v Value<Scalar>,
}

impl<'v> Described for Json<'v> {
    ghost use Rattle.juniper_values.specs.Default.{default_content};
    ghost use Rattle.juniper_answers.specs.View.{view};
    ghost use Rattle.guide.specs.Json.{Grows, events};

    ghost writes = { λ json. Grows (events (view default_content json.answer.now)) };
}

impl<'v> Serialize for Json<'v> {
    fn serialize<T: Serializer>(&self, out: &mut T) -> Result<(), T::Error> {
        send(self.answer, out)
    }
}

#[cycle(send)]
fn send<T: Serializer>(answer: &Value<Scalar>, out: &mut T) -> Result<(), T::Error>
    ensures { OnOk result (Grows (events (view default_content answer.now)) (T.written out.old) (T.written out.new)) }
{
    match answer {
        Value::Null => out.unit(),
        Value::Scalar(scalar) => send_scalar(scalar, out),
        Value::List(items) => send_items(items, out),
        Value::Object(object) => send_fields(object, out),
    }
}

fn send_scalar<T: Serializer>(scalar: &Scalar, out: &mut T) -> Result<(), T::Error>
    ensures { OnOk result (Logs (T.written out.old) (T.written out.new) (scalar_event (default_content scalar.now))) }
{
    match scalar {
        DefaultScalarValue::Int(n) => out.i64(i64::from(*n)),
        DefaultScalarValue::String(text) => out.str(text.as_str()),
        DefaultScalarValue::Boolean(b) => out.bool(*b),
    }
}

#[cycle(send)]
fn send_items<T: Serializer>(items: &Vec<Value<Scalar>>, out: &mut T) -> Result<(), T::Error>
    ensures { OnOk result (Grows (events (parts.list (items_view default_content items.now.items))) (T.written out.old) (T.written out.new)) }
{
    out.begin_seq(Some(items.len()))?;
    for item in items {
        send(item, out)?;
    }
    out.end_seq()
}

#[cycle(send)]
fn send_fields<T: Serializer>(object: &Object<Scalar>, out: &mut T) -> Result<(), T::Error>
    ensures { OnOk result (Grows (events (parts.object (fields_view default_content (pairs object.now)))) (T.written out.old) (T.written out.new)) }
{
    out.begin_map(Some(object.field_count()))?;
    for (key, value) in object.iter() {
        out.key(key.as_str())?;
        send(value, out)?;
    }
    out.end_map()
}
