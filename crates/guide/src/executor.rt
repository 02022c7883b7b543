//! An executor of constants.
ghost use Rattle.std.specs.Prelude.{◌≡◌, IfOk, IfErr, OnOk, List, option_map, string_bytes};
ghost use Rattle.std.specs.Str.{chars};
ghost use Rattle.std.specs.String.{string_eq};
ghost use Rattle.indexmap.specs.IndexMap.{insert_entry};
ghost use Rattle.juniper_values.specs.Default.{default_content};
ghost use Rattle.juniper_tree.specs.View.{view_field, view_selection, view_selections, view_word};
ghost use Rattle.juniper_answers.specs.View.{view, pairs};
ghost use Rattle.guide.specs.Answered.{Answer, Answers, AnswersEach, IsAnswered, IsUnanswered, merged, response_key};

use crate::argument_value;
use crate::json::json_text;
use juniper::laws::selections_are_seen;
use juniper::{
    DefaultScalarValue, Field, InputValue, Object, Operation, ParseFailure, ScalarValue, Selection,
    Span, Spanning, Value, Variables, parse_document_source,
};
use juniper_requests::{OperationFailure, operation_named, with_defaults};
use std::alloc::{AllocError, Global};

type Scalar = DefaultScalarValue;

/// Why a request has no answer.
#[derive(Debug, Drop)]
pub enum AnswerFailure {
    /// The text is no document.
    Parse(ParseFailure),
    /// The document has no operation to execute.
    Operation(OperationFailure),
    /// A selection that is no field.
    Fragment(Span),
    /// Memory ran out.
    Memory,
}

// Why an operation isn't executed.
#[derive(Drop)]
enum Stop {
    // A selection that is no field.
    Fragment(Span),
    Memory,
}

impl From<AllocError> for Stop {
    fn from(_error: AllocError) -> Self {
        Stop::Memory
    }
}

/// The answer to a request, as JSON. A field's value is its argument `value`, or `null`. Fragments aren't executed.
pub fn answer_json(
    alloc: Global,
    source: &str,
    name: Option<&str>,
    variables: Variables<Scalar>,
) -> Result<String, AnswerFailure>
    ensures answered { IfOk result (λ text. IsAnswered (chars source.now) (option_map (λ t. chars t.now) name.entry) (string_bytes text)) }
    ensures failed { IfErr result (IsUnanswered (chars source.now) (option_map (λ t. chars t.now) name.entry)) }
{
    let document = match parse_document_source::<Scalar>(alloc, source) {
        Ok(document) => document,
        Err(failure) => return Err(AnswerFailure::Parse(failure)),
    };
    let operation = match operation_named(&document, name) {
        Ok(operation) => operation,
        Err(failure) => return Err(AnswerFailure::Operation(failure)),
    };
    let answer = match executed(alloc, &operation.item, variables) {
        Ok(answer) => answer,
        Err(Stop::Fragment(span)) => return Err(AnswerFailure::Fragment(span)),
        Err(Stop::Memory) => return Err(AnswerFailure::Memory),
    };
    match json_text(alloc, &answer) {
        Ok(text) => Ok(text),
        Err(_) => Err(AnswerFailure::Memory),
    }
}

// The answers to the fields of an operation, by their response keys (GraphQL specification, section 6.3).
fn executed(
    alloc: Global,
    operation: &Operation<'_, Scalar>,
    variables: Variables<Scalar>,
) -> Result<Value<Scalar>, Stop>
    ensures { IfOk result (λ answer. (answers : List Answer) × AnswersEach (view_selections default_content operation.now.selection_set.items) answers × (view default_content answer ≡ merged answers)) }
{
    let variables = match &operation.variable_definitions {
        Some(definitions) => with_defaults(alloc, &definitions.item, variables)?,
        None => variables,
    };
    let mut answers = Object::with_capacity(alloc, operation.selection_set.len())?;
    for selection in &operation.selection_set {
        add_answer(alloc, &mut answers, selection, &variables)?;
    }
    Ok(Value::Object(answers))
}

fn add_answer(
    alloc: Global,
    answers: &mut Object<Scalar>,
    selection: &Selection<'_, Scalar>,
    variables: &Variables<Scalar>,
) -> Result<(), Stop>
    ensures { OnOk result ((answer : Answer) × Answers (view_selection default_content selection.now) answer × (pairs answers.new ≡ insert_entry string_eq (pairs answers.old) answer.0 answer.1)) }
{
    // The law that the proof cites.
    selections_are_seen::<Scalar>();
    match selection {
        Selection::Field(field) => add_field(alloc, answers, field, variables),
        Selection::FragmentSpread(spread) => Err(Stop::Fragment(spread.span)),
        Selection::InlineFragment(inline) => Err(Stop::Fragment(inline.span)),
    }
}

// A field's value is its argument `value`, or null.
fn add_field(
    alloc: Global,
    answers: &mut Object<Scalar>,
    field: &Spanning<Field<'_, Scalar>>,
    variables: &Variables<Scalar>,
) -> Result<(), Stop>
    ensures { OnOk result ((answer : Answer) × Answers (view_field default_content field.now) answer × (pairs answers.new ≡ insert_entry string_eq (pairs answers.old) answer.0 answer.1)) }
{
    let value = match argument_value(alloc, &field.item, "value", variables)? {
        Some(value) => constant(alloc, &value)?,
        None => Value::Null,
    };
    let key = String::from_str(alloc, response_key(&field.item))?;
    match answers.add_field(key, value) {
        Ok(_) => Ok(()),
        Err(_) => Err(Stop::Memory),
    }
}

fn response_key<'a>(field: &Field<'a, Scalar>) -> &'a str
    ensures { chars result.now ≡ response_key (option_map view_word field.now.alias) (view_word field.now.name) }
{
    match &field.alias {
        Some(alias) => alias.item,
        None => field.name.item,
    }
}

// A value without variables, as an answer.
#[cycle(constant)]
fn constant(alloc: Global, value: &InputValue<Scalar>) -> Result<Value<Scalar>, AllocError> {
    match value {
        InputValue::Null | InputValue::Variable(_) => Ok(Value::Null),
        InputValue::Scalar(scalar) => Ok(Value::Scalar(scalar.try_clone(alloc)?)),
        InputValue::Enum(name) => Ok(Value::Scalar(DefaultScalarValue::String(name.clone()?))),
        InputValue::List(items) => constant_items(alloc, items),
        InputValue::Object(fields) => constant_fields(alloc, fields),
    }
}

#[cycle(constant)]
fn constant_items(
    alloc: Global,
    items: &Vec<Spanning<InputValue<Scalar>>>,
) -> Result<Value<Scalar>, AllocError> {
    let mut constants = Vec::with_capacity(alloc, items.len())?;
    for item in items {
        constants.push(constant(alloc, &item.item)?)?;
    }
    Ok(Value::List(constants))
}

#[cycle(constant)]
fn constant_fields(
    alloc: Global,
    fields: &Vec<(Spanning<String>, Spanning<InputValue<Scalar>>)>,
) -> Result<Value<Scalar>, AllocError> {
    let mut constants = Object::with_capacity(alloc, fields.len())?;
    for (name, value) in fields {
        let key = name.item.clone()?;
        let Ok(_) = constants.add_field(key, constant(alloc, &value.item)?) else {
            return Err(AllocError);
        };
    }
    Ok(Value::Object(constants))
}
