//! Lists: the loops that read their items, and how they grow.
ghost use Rattle.std.specs.Prelude.{◌≡◌, ◌<◌, ◌++◌, ◌∷◌, [], IfOk, OnOk, vec_len, vec_capacity};

use std::alloc::AllocError;

// The capacity that is requested at the first of several items. Most lists have no more.
const FEW: usize = 3;

/// Appends an item. The first item of a list requests capacity for the expected length.
#[inline(always)]
pub(crate) fn push_item<T: Drop>(
    items: &mut Vec<T>,
    item: T,
    expected: usize,
) -> Result<(), AllocError>
    ensures items { OnOk result (items.new.items ≡ items.old.items ++ item ∷ []) }
{
    if items.len() == items.capacity() {
        match grow(items, expected) {
            Ok(()) => {}
            Err(error) => return give_up(item, error),
        }
    }
    items.push_reserved(item);
    Ok(())
}

// Requests capacity for one more item of a list that is full, or for as many as are expected of an empty one.
#[inline(never)]
fn grow<T>(items: &mut Vec<T>, expected: usize) -> Result<(), AllocError>
    ensures items { items.new.items ≡ items.old.items }
    ensures grown { OnOk result (vec_len items.new < vec_capacity items.new) }
{
    if items.is_empty() {
        items.reserve_exact(expected)?;
    }
    items.reserve(1)
}

// Drops an item that can't be appended, apart from the code that appends: each place where a selection is dropped makes
// it less likely that a list drops its selections in place.
#[cold]
#[inline(never)]
fn give_up<T: Drop>(_item: T, error: AllocError) -> Result<(), AllocError>
    ensures { IfOk result (λ _. ⊥) }
{
    Err(error)
}

/// The expected length of a list whose first item has just been read: at least one.
#[inline(always)]
pub fn expected_items(is_last: bool) -> usize
    ensures { 0 < result }
{
    if is_last { 1 } else { FEW }
}

/// Returns `Item+ close`: a list of one item or more, up to a closing token, which is taken.
macro_rules! many {
    ($tokens:ident, $items:expr, $item:expr, $close:expr) => {
        many!(
            $tokens,
            $items,
            $item,
            $close,
            $crate::parser::lists::expected_items($crate::parser::next::next_is($tokens, $close))
        )
    };
    ($tokens:ident, $items:expr, $item:expr, $close:expr, $expected:expr) => {{
        let mut items = $items;
        loop {
            let item = $item?;
            items.gather(item, $expected)?;
            if $crate::parser::next::take_if($tokens, $close) {
                return Ok(items);
            }
        }
    }};
}

/// Returns `Item* close`: a list of any number of items, up to a closing token, which is taken.
macro_rules! any {
    ($tokens:ident, $items:expr, $item:expr, $close:expr) => {{
        let mut items = $items;
        loop {
            if $crate::parser::next::take_if($tokens, $close) {
                return Ok(items);
            }
            let item = $item?;
            let is_last = $crate::parser::next::next_is($tokens, $close);
            items.gather(item, $crate::parser::lists::expected_items(is_last))?;
        }
    }};
}

pub(crate) use any;
pub(crate) use many;
