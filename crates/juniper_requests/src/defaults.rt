//! The values of variables with their defaults.
ghost use Rattle.std.specs.Prelude.{◌≡◌, ◌++◌, ◌∷◌, [], OnOk, IfOk, List, map, not, option_map, if◌then◌else◌};
ghost use Rattle.std.specs.List.{list_any};
ghost use Rattle.std.specs.Str.{chars};
ghost use Rattle.graphql_grammar.specs.Tokens.{Text};
ghost use Rattle.juniper_values.specs.Text.{same_text};
ghost use Rattle.juniper_values.specs.View.{values_in, view};
ghost use Rattle.juniper_tree.specs.View.{view_variable};
ghost use Rattle.juniper_requests.specs.Defaults.{WithDefaults, AreKept, given_or};
ghost use Rattle.juniper_requests.specs.device.Seen.{HasSeen};

use juniper_tokens::Spanning;
use juniper_tree::VariableDefinitions;
use juniper_values::{InputValue, ScalarValue, Variables};
use std::alloc::{AllocError, Global};
use std::collections::BTreeSet;

/// Returns the values of variables, with the default of each variable that is defined and has no value (GraphQL
/// specification, October 2021, section 6.1.2). So `InputValue::into_const` replaces such a variable by its default.
///
/// What is given stays: also `null`, whatever the default, and the value of a variable that isn't defined. If several
/// definitions have one name, which validation forbids (section 5.8.1), the first decides, also if it has no default.
/// No value is coerced to its type, and a variable that needs a value and has none isn't refused.
///
/// For n definitions takes time in proportion to n log n comparisons of names, to the size of the defaults that it
/// copies, and to n look-ups in `variables`. Returns `AllocError` if memory runs out; the values are dropped then.
///
/// ```
/// // of `query ($a: Int = 1, $b: Int = 2, $c: Int)` and {b: null}: {a: 1, b: null}
/// let variables = with_defaults(alloc, definitions, variables)?;
/// ```
pub fn with_defaults<'a, S: ScalarValue>(
    alloc: Global,
    definitions: &VariableDefinitions<'a, S>,
    variables: Variables<S>,
) -> Result<Variables<S>, AllocError>
    ensures values { IfOk result (λ all. WithDefaults (map (view_variable S.content) definitions.now.items.items) (values_in S.content variables) (values_in S.content all)) }
    ensures kept { IfOk result (λ all. AreKept (values_in (λ s. s) variables) (values_in (λ s. s) all)) }
{
    let mut all = variables;
    let mut seen = BTreeSet::new(alloc);
    for definition in &definitions.items {
        let name = definition.0.item;
        if !is_first(&mut seen, name)? {
            continue;
        }
        add_default(alloc, &mut all, name, &definition.1.default_value)?;
    }
    Ok(all)
}

// Whether a name wasn't seen before. It is from then on.
fn is_first<'t>(seen: &mut BTreeSet<&'t str>, name: &'t str) -> Result<bool, AllocError>
    ensures first { IfOk result (λ first. (names : List Text) → HasSeen seen.old names → first ≡ not (list_any (same_text (chars name.now)) names)) }
    ensures seen { OnOk result ((names : List Text) → HasSeen seen.old names → HasSeen seen.new (names ++ chars name.now ∷ [])) }
{
    Ok(seen.insert(name)?)
}

// Gives a variable its default, if it has one and no value.
fn add_default<S: ScalarValue>(
    alloc: Global,
    all: &mut Variables<S>,
    name: &str,
    default_value: &Option<Spanning<InputValue<S>>>,
) -> Result<(), AllocError>
    ensures values { OnOk result ((t : Text) → values_in S.content all.new t ≡ (if same_text (chars name.now) t then given_or (values_in S.content all.old t) (option_map (λ v. view S.content v.item) default_value.now) else values_in S.content all.old t)) }
    ensures kept { OnOk result (AreKept (values_in (λ s. s) all.old) (values_in (λ s. s) all.new)) }
{
    let Some(value) = default_value else {
        return Ok(());
    };
    if all.contains_key(name) {
        return Ok(());
    }
    let key = String::from_str(alloc, name)?;
    all.insert(key, value.item.try_clone(alloc)?)?;
    Ok(())
}
