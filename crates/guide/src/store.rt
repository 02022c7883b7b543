//! A store of queries.
ghost use Rattle.std.specs.Prelude.{IfOk, OnOk};
ghost use Rattle.std.specs.Str.{chars};
ghost use Rattle.guide.specs.Stores.{Stores, Finds};

use juniper_canonical::canonical_text;
use juniper_tokens::LexFailure;
use std::alloc::Global;
use std::collections::BTreeMap;

/// Numbers of queries, by the queries' canonical texts.
pub type Store = BTreeMap<String, usize>;

/// Stores the number of a query, in place of the one that a query with the same tokens has.
pub fn store_query(
    alloc: Global,
    store: &mut Store,
    source: &str,
    number: usize,
) -> Result<(), LexFailure>
    ensures { OnOk result (Stores (chars source.now) number store.old store.new) }
{
    let key = canonical_text(alloc, source)?;
    let Ok(_) = store.insert(key, number) else {
        return Err(LexFailure::Memory);
    };
    Ok(())
}

/// The number of the stored query that has the tokens of a text.
pub fn stored_query(alloc: Global, store: &Store, source: &str) -> Result<Option<usize>, LexFailure>
    ensures { IfOk result (Finds (chars source.now) store.now) }
{
    let key = canonical_text(alloc, source)?;
    Ok(store.get(key.as_str()).copied())
}
