//! Where a walk over an index begins and ends.
ghost use Rattle.std.specs.Prelude.{◌≡◌, Some, true, false};
ghost use Rattle.be_paged_order.specs.Imports.{cursor_bytes, is_ge, name_cmp, option_copied};
ghost use Rattle.be_paged_order.specs.Ways.{IsWayOf, is_up_to};

use be_order::OrderedKeys;
use be_plan::KeyRange;
use be_tree_reading::Way;

/// Returns `true` if the first key is equal to the second or comes after it.
fn is_at_or_after(a: &[u8], b: &[u8]) -> bool
    ensures { result ≡ is_ge (name_cmp a.now b.now) }
{
    a.cmp(&b).is_ge()
}

/// Returns `true` if the key isn't above the bound, or if there is no bound.
fn is_up_to(high: Option<&[u8]>, key: &[u8]) -> bool
    ensures { result ≡ is_up_to (option_copied high.entry) key.now }
{
    match high {
        Some(high) => is_at_or_after(high, key),
        None => true,
    }
}

/// Returns the way up from the cursor, or over the whole range if the range begins after the
/// cursor.
fn way_up<'a>(low: &'a [u8], high: Option<&'a [u8]>, cursor: &'a [u8]) -> Way<'a>
    ensures { IsWayOf low.now (option_copied high.entry) false (Some cursor.now) result }
{
    if is_at_or_after(cursor, low) {
        return Way {
            low: cursor,
            high,
            strict: true,
            back: false,
        };
    }
    Way {
        low,
        high,
        strict: false,
        back: false,
    }
}

/// Returns the way down from the cursor, or over the whole range if the range ends before the
/// cursor.
fn way_down<'a>(low: &'a [u8], high: Option<&'a [u8]>, cursor: &'a [u8]) -> Way<'a>
    ensures { IsWayOf low.now (option_copied high.entry) true (Some cursor.now) result }
{
    if is_up_to(high, cursor) {
        return Way {
            low,
            high: Some(cursor),
            strict: true,
            back: true,
        };
    }
    Way {
        low,
        high,
        strict: false,
        back: true,
    }
}

/// Returns the way over those keys of a range that come after the cursor, up or down. Without a
/// cursor, it covers the whole range.
pub(crate) fn way_of(keys: OrderedKeys<'_>) -> Way<'_>
    ensures { IsWayOf keys.entry.keys.low.now (option_copied keys.entry.keys.high)
        keys.entry.descending (cursor_bytes keys.entry.cursor.now) result }
{
    let KeyRange { low, high, .. } = keys.keys;
    match keys.cursor {
        Some(cursor) if keys.descending => way_down(low, high, cursor.as_slice()),
        Some(cursor) => way_up(low, high, cursor.as_slice()),
        None => Way {
            low,
            high,
            strict: false,
            back: keys.descending,
        },
    }
}
