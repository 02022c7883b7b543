//! The tree of an executable document.

use graphql_grammar::OperationType;
use juniper_tokens::Spanning;
use juniper_values::{InputValue, Type};

/// The definition of a variable, without its name (GraphQL specification, October 2021, section 2.10).
#[derive(Drop, PartialEq)]
pub struct VariableDefinition<'a, S: Drop> {
    pub var_type: Spanning<Type<&'a str>>,
    pub default_value: Option<Spanning<InputValue<S>>>,
    pub directives: Option<Vec<Spanning<Directive<'a, S>>>>,
}

/// The variables of an operation, by their names, without the `$`
/// (GraphQL specification, October 2021, section 2.10).
#[derive(Drop, PartialEq)]
pub struct VariableDefinitions<'a, S: Drop> {
    pub items: Vec<(Spanning<&'a str>, VariableDefinition<'a, S>)>,
}

/// The arguments of a field or a directive, in the order in which they are written
/// (GraphQL specification, October 2021, section 2.6).
#[derive(Drop, PartialEq)]
pub struct Arguments<'a, S: Drop> {
    pub items: Vec<(Spanning<&'a str>, Spanning<InputValue<S>>)>,
}

/// A field of a selection set (GraphQL specification, October 2021, section 2.5).
#[derive(Drop, PartialEq)]
#[cycle(ast)]
pub struct Field<'a, S: Drop> {
    /// The name that the response uses in place of the field's own.
    pub alias: Option<Spanning<&'a str>>,
    pub name: Spanning<&'a str>,
    pub arguments: Option<Spanning<Arguments<'a, S>>>,
    /// None if there are none, otherwise not empty.
    pub directives: Option<Vec<Spanning<Directive<'a, S>>>>,
    /// None if there is none, otherwise not empty.
    pub selection_set: Option<Vec<Selection<'a, S>>>,
}

/// The use of a fragment by its name (GraphQL specification, October 2021, section 2.8).
#[derive(Drop, PartialEq)]
pub struct FragmentSpread<'a, S: Drop> {
    pub name: Spanning<&'a str>,
    /// None if there are none, otherwise not empty.
    pub directives: Option<Vec<Spanning<Directive<'a, S>>>>,
}

/// Selections under a type condition or under directives (GraphQL specification, October 2021, section 2.8.2).
#[derive(Drop, PartialEq)]
#[cycle(ast)]
pub struct InlineFragment<'a, S: Drop> {
    /// The type condition, or None if the selections apply on any type.
    pub type_condition: Option<Spanning<&'a str>>,
    /// None if there are none, otherwise not empty.
    pub directives: Option<Vec<Spanning<Directive<'a, S>>>>,
    pub selection_set: Vec<Selection<'a, S>>,
}

/// An entry of a selection set (GraphQL specification, October 2021, section 2.4).
#[derive(PartialEq)]
#[cycle(ast)]
pub enum Selection<'a, S: Drop> {
    /// A field, as `a: b(c: 1) @d { e }` (section 2.5).
    Field(Spanning<Field<'a, S>>),
    /// A fragment by its name, as `...F @d` (section 2.8).
    FragmentSpread(Spanning<FragmentSpread<'a, S>>),
    /// Selections under a type condition or directives, as `... on T @d { e }` (section 2.8.2).
    InlineFragment(Spanning<InlineFragment<'a, S>>),
}

// A derived drop isn't compiled into that of a list, which then copies each selection before it is dropped.
impl<'a, S: Drop> Drop for Selection<'a, S> {
    #[inline(always)]
    fn drop(self) {
        match self {
            Selection::Field(
                Spanning {
                    item: Field {
                        alias: _,
                        name: _,
                        arguments: _arguments,
                        directives: _directives,
                        selection_set: _selection_set,
                    },
                    span: _,
                },
            ) => {}
            Selection::FragmentSpread(_spread) => {}
            Selection::InlineFragment(_inline) => {}
        }
    }
}

/// A directive (GraphQL specification, October 2021, section 2.12).
#[derive(Drop, PartialEq)]
pub struct Directive<'a, S: Drop> {
    /// The name, without its `@`.
    pub name: Spanning<&'a str>,
    pub arguments: Option<Spanning<Arguments<'a, S>>>,
}

/// An operation (GraphQL specification, October 2021, section 2.3).
#[derive(Drop, PartialEq)]
pub struct Operation<'a, S: Drop> {
    pub operation_type: OperationType,
    pub name: Option<Spanning<&'a str>>,
    pub variable_definitions: Option<Spanning<VariableDefinitions<'a, S>>>,
    /// None if there are none, otherwise not empty.
    pub directives: Option<Vec<Spanning<Directive<'a, S>>>>,
    pub selection_set: Vec<Selection<'a, S>>,
}

/// The definition of a fragment (GraphQL specification, October 2021, section 2.8).
#[derive(Drop, PartialEq)]
pub struct Fragment<'a, S: Drop> {
    pub name: Spanning<&'a str>,
    /// The type on which the fragment applies.
    pub type_condition: Spanning<&'a str>,
    /// None if there are none, otherwise not empty.
    pub directives: Option<Vec<Spanning<Directive<'a, S>>>>,
    pub selection_set: Vec<Selection<'a, S>>,
}

/// A definition of an executable document (GraphQL specification, October 2021, section 2.2).
#[derive(Drop, PartialEq)]
pub enum Definition<'a, S: Drop> {
    /// An operation, as `query Q($v: T) { a }` or `{ a }` (section 2.3).
    Operation(Spanning<Operation<'a, S>>),
    /// A fragment, as `fragment F on T { a }` (section 2.8).
    Fragment(Spanning<Fragment<'a, S>>),
}

/// The definitions of a document, in the order in which they are written
/// (GraphQL specification, October 2021, section 2.2).
///
/// What only reads a document takes it as `&[Definition<'a, S>]`.
pub type OwnedDocument<'a, S> = Vec<Definition<'a, S>>;
