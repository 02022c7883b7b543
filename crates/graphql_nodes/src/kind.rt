//! The kinds of nodes.
ghost use Rattle.std.specs.Prelude.{◌≡◌};
ghost use Rattle.graphql_nodes.specs.Kinds.{kind_name};

/// The kind of a node: which part of a document it is.
#[derive(Clone, Copy, Debug, PartialEq, Eq)]
pub enum NodeKind {
    /// An operation that only reads.
    Query,
    /// An operation that writes.
    Mutation,
    /// A long-lived operation.
    Subscription,
    /// The definition of a fragment.
    FragmentDefinition,
    /// The variable definitions of an operation.
    VariableDefinitions,
    /// A variable definition, by its name.
    VariableDefinition,
    /// The type of a variable.
    Type,
    /// A field.
    Field,
    /// The alias of a field.
    Alias,
    /// The use of a fragment by its name.
    FragmentSpread,
    /// A fragment without a name.
    InlineFragment,
    /// A directive.
    Directive,
    /// The arguments of a field or a directive.
    Arguments,
    /// An argument, by its name.
    Argument,
    /// The value `null`.
    Null,
    /// A value that is a scalar.
    Scalar,
    /// A value that is a name of an enum.
    Enum,
    /// A value that is a variable.
    Variable,
    /// A value that is a list.
    List,
    /// A value that is an object.
    Object,
    /// A field of an object, by its key.
    ObjectField,
}

impl NodeKind {
    /// The kind's name, as `gqlcheck` writes it.
    pub fn name(self) -> &'static str
        ensures { result.now ≡ kind_name self }
    {
        match self {
            NodeKind::Query => "query",
            NodeKind::Mutation => "mutation",
            NodeKind::Subscription => "subscription",
            NodeKind::FragmentDefinition => "fragment",
            NodeKind::VariableDefinitions => "variables",
            NodeKind::VariableDefinition => "variable",
            NodeKind::Type => "type",
            NodeKind::Field => "field",
            NodeKind::Alias => "alias",
            NodeKind::FragmentSpread => "spread",
            NodeKind::InlineFragment => "inline",
            NodeKind::Directive => "directive",
            NodeKind::Arguments => "arguments",
            NodeKind::Argument => "argument",
            NodeKind::Null => "null",
            NodeKind::Scalar => "scalar",
            NodeKind::Enum => "enum",
            NodeKind::Variable => "reference",
            NodeKind::List => "list",
            NodeKind::Object => "object",
            NodeKind::ObjectField => "key",
        }
    }
}
