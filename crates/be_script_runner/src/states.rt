//! The script that rebuilds a version.
//!
//! The script is the text that be_journal_text's `dump_state` returns for a journal that leaves the
//! version: the operations that rebuild the version, list by list. The whole script is built before
//! any of it is written, so if memory runs out, nothing is written.
ghost use Rattle.std.specs.Prelude.{◌≡◌, ◌<◌, ◌++◌, [], ℕ, All, IfOk, OnOk, length, true, false};
ghost use Rattle.be_script_runner.specs.Imports.{cut_lines, left, state_dump, state_ops};
ghost use Rattle.be_script_runner.specs.Imports.{string_bytes, volume_pinned, CanBeOp, HasRead};
ghost use Rattle.be_script_runner.specs.Imports.{IsPassOf, IsPinnedTo};

use be_journal_text::push_write;
use be_store::{Pass, Store};
use be_volume_state::Place;
use std::alloc::{AllocError, Global};

/// Appends the lines for the next list of the operations that rebuild a pass's pinned version.
/// Returns false if no list was left.
fn push_next(
    alloc: Global,
    store: &Store,
    pass: &mut Pass,
    place: &mut Place,
    text: &mut String,
) -> Result<bool, AllocError>
    requires pass { IsPassOf store.now pass.old }
    requires pinned { (n : ℕ) × IsPinnedTo pass.old.knows n }
    ensures pass { IsPassOf store.now pass.new × HasRead pass.old.knows pass.new.knows }
    ensures text { OnOk result (string_bytes text.new
        ++ cut_lines (left (volume_pinned pass.old.knows) place.new)
        ≡ string_bytes text.old ++ cut_lines (left (volume_pinned pass.old.knows) place.old)) }
    ensures can { OnOk result (All CanBeOp (left (volume_pinned pass.old.knows) place.new)
        → All CanBeOp (left (volume_pinned pass.old.knows) place.old)) }
    ensures fewer { IfOk result (λ more. more ≡ true →
        length (left (volume_pinned pass.old.knows) place.new)
        < length (left (volume_pinned pass.old.knows) place.old)) }
    ensures ends { IfOk result (λ more. more ≡ false → left (volume_pinned pass.old.knows) place.new
        ≡ []) }
{
    let Ok(list) = store.state(alloc, pass, place) else {
        return Err(AllocError);
    };
    let Some(ops) = list else {
        return Ok(false);
    };
    push_write(alloc, text, ops.as_slice())?;
    Ok(true)
}

/// The script that rebuilds a pass's pinned version.
pub(crate) fn pinned_text(
    alloc: Global,
    store: &Store,
    pass: &mut Pass,
) -> Result<String, AllocError>
    requires pass { IsPassOf store.now pass.old }
    requires pinned { (n : ℕ) × IsPinnedTo pass.old.knows n }
    ensures pass { IsPassOf store.now pass.new × HasRead pass.old.knows pass.new.knows }
    ensures text { IfOk result (λ text. string_bytes text
        ≡ state_dump (volume_pinned pass.old.knows)) }
    ensures can { OnOk result (All CanBeOp (state_ops (volume_pinned pass.old.knows))) }
{
    let mut place = Place::new(alloc);
    let mut text = String::new(alloc);
    'lists: while push_next(alloc, store, pass, &mut place, &mut text)? {}
    Ok(text)
}
