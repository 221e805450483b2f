//! Reads the operations that rebuild a version, and what its indices hold, through any page reader.
ghost use Rattle.std.specs.Prelude.{◌≡◌, ◌<◌, ◌≤◌, ◌++◌, [], IfNone, IfOk, IfSome, length};
ghost use Rattle.be_store.specs.Imports.{given, is_held, left, IsVersion, State};

use be_paged::whole;
use be_pages::Look;
use be_value::Name;
use be_volume::Op;
use be_volume_state::{Place, Whole, next_list};
use std::alloc::{AllocError, Global};

/// Returns the next list of a version's operations, and gives the reader back.
pub(crate) fn read_on<L: Look>(
    alloc: Global,
    look: L,
    version_page: u64,
    place: &mut Place,
) -> (L, Result<Option<Vec<Op>>, AllocError>)
    ghost volume: { State }
    requires version { IsVersion (L.page_state look) (L.words look) version_page volume }
    ensures list { left volume place.old ≡ given (λ ops. ops.items) result.1
        ++ left volume place.new }
    ensures length { IfOk result.1 (λ list. IfSome list
        (λ ops. (1 ≤ length ops.items) × (length ops.items ≤ 64))) }
    ensures full { IfOk result.1 (λ list. IfSome list
        (λ ops. length ops.items < 64 → left volume place.new ≡ [])) }
    ensures ends { IfOk result.1 (λ list. IfNone list (left volume place.old ≡ [])) }
    ensures kept { L.kept result.0 ≡ L.kept look }
{
    let mut reader = whole(alloc, look, version_page);
    let list = next_list(&mut reader, place);
    (reader.into_look(), list)
}

/// Returns `true` if the index of that name has the node in a version, and gives the reader back.
pub(crate) fn held_in<L: Look>(
    alloc: Global,
    look: L,
    version_page: u64,
    node: u64,
    name: &Name,
) -> (L, bool)
    ghost volume: { State }
    requires version { IsVersion (L.page_state look) (L.words look) version_page volume }
    ensures held { result.1 ≡ is_held volume node name.now }
    ensures kept { L.kept result.0 ≡ L.kept look }
{
    let mut reader = whole(alloc, look, version_page);
    let is_held = reader.is_held(node, name);
    (reader.into_look(), is_held)
}
