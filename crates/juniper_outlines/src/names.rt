//! Definitions by the names of fragments.
ghost use Rattle.std.specs.Prelude.{◌≡◌, ℕ, Some, None, Option, OnOk, IfOk, if◌then◌else◌, nat_eq};
ghost use Rattle.std.specs.Cmp.Lexicographic.{pointwise};
ghost use Rattle.std.specs.Str.{chars};
ghost use Rattle.graphql_lexical.specs.Characters.{Text};
ghost use Rattle.juniper_outlines.specs.Names.{Knows};
ghost use Rattle.juniper_outlines.specs.Definitions.{AreNamed, is_named, place_of};

use crate::outline::DefinitionOutline;
use juniper_tokens::text::same_text;
use std::alloc::{AllocError, Global};
use std::collections::BTreeMap;

/// Puts the index of a definition into a map at the name of its fragment, in the place of another index that is there.
/// Returns `AllocError` if memory runs out.
pub fn put<'t>(
    names: &mut BTreeMap<&'t str, usize>,
    name: &'t str,
    at: usize,
) -> Result<(), AllocError>
    ensures { OnOk result ((place : Text → Option ℕ) → Knows names.old place → Knows names.new (λ t. if pointwise nat_eq (chars name.now) t then Some at else place t)) }
{
    names.insert(name, at)?;
    Ok(())
}

// The index of the fragment of this name among the definitions, or None if there is none.
fn find<'t>(names: &BTreeMap<&'t str, usize>, name: &'t str) -> Option<usize>
    ensures { (place : Text → Option ℕ) → Knows names.now place → result ≡ place (chars name.now) }
{
    names.get(&name).copied()
}

/// The most definitions that are looked through for a name: so a small document takes no memory for its names. Those of
/// more definitions are put into a map.
const FEW: usize = 8;

/// The indexes of fragments by their names, the first of each name, or no names where the definitions are few.
pub(crate) fn names_of<'a>(
    alloc: Global,
    definitions: &[DefinitionOutline<'a>],
) -> Result<BTreeMap<&'a str, usize>, AllocError>
    ensures { IfOk result (λ names. AreNamed definitions.now names) }
{
    let mut names = BTreeMap::new(alloc);
    if definitions.len() > FEW {
        put_all(&mut names, definitions)?;
    }
    Ok(names)
}

fn put_all<'a>(
    names: &mut BTreeMap<&'a str, usize>,
    definitions: &[DefinitionOutline<'a>],
) -> Result<(), AllocError>
    requires { Knows names.old (λ _. None) }
    ensures { OnOk result (Knows names.new (place_of definitions.now)) }
{
    for i in (0..definitions.len()).rev() {
        match definitions[i].fragment {
            None => {}
            Some(name) => put(names, name, i)?,
        }
    }
    Ok(())
}

/// The index of the first fragment of this name among definitions whose names these are, or None if there is none.
pub(crate) fn find_named<'a>(
    definitions: &[DefinitionOutline<'a>],
    names: &BTreeMap<&'a str, usize>,
    name: &'a str,
) -> Option<usize>
    requires { AreNamed definitions.now names.now }
    ensures { result ≡ place_of definitions.now (chars name.now) }
{
    if definitions.len() > FEW {
        find(names, name)
    } else {
        find_among(definitions, name)
    }
}

fn find_among(definitions: &[DefinitionOutline<'_>], name: &str) -> Option<usize>
    ensures { result ≡ place_of definitions.now (chars name.now) }
{
    for i in 0..definitions.len() {
        if is_named(&definitions[i], name) {
            return Some(i);
        }
    }
    None
}

// Whether a definition is a fragment of this name.
fn is_named(definition: &DefinitionOutline<'_>, name: &str) -> bool
    ensures { result ≡ is_named (chars name.now) definition.now }
{
    match definition.fragment {
        None => false,
        Some(own) => same_text(own, name),
    }
}
