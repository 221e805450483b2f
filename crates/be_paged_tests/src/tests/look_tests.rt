//! Reads versions by a page reader other than their room. One counts its calls; another, while a
//! write is open, sees the pages as they were before it.
ghost use Rattle.std.specs.Prelude.{◌≡◌, IfOk};
ghost use Rattle.be_pages.specs.Pages.{IsUnchanged, after_undo};
ghost use Rattle.be_tree_reading.specs.Forest.{IsWriteStart};
ghost use Rattle.be_paged_reading.specs.Version.{IsVersion};

use crate::tests::lines::nodes_text;
use crate::tests::run_lines;
use crate::tests::test_looks::Before;
use be_paged_test_tools::{Both, Forms, accepts, apply_pages, filled, query_both, read_query};
use be_pages::{Look, VecRoom};
use be_test_tools::{Counted, EQUAL_VALUES, again};
use be_value::Refusal;
use be_volume::{Op, Volume};
use std::alloc::Global;
use std::test::Fail;

/// Fails unless both forms give these nodes. It returns the page reader unchanged.
fn expect_look<L: Look + Drop>(
    alloc: Global,
    plain: &Volume,
    look: L,
    page: u64,
    text: &str,
    expected: &str,
) -> Result<L, Fail>
    requires version { IsVersion (L.page_state look) (L.words look) page plain.now }
    ensures unchanged { IfOk result (λ r. IsUnchanged L.kept L.page_state L.words look r) }
{
    let query = read_query(alloc, text)?;
    let (look, answer) = query_both(alloc, plain, look, page, &query, None)?;
    if nodes_text(alloc, answer)?.as_str() == expected {
        return Ok(look);
    }
    Err(Fail::new(text))
}

/// Fails unless both forms give these nodes. The form in pages is read by a page reader that counts
/// its calls. It returns both forms unchanged.
fn expect_counting(alloc: Global, both: Both, text: &str, expected: &str) -> Result<Both, Fail> {
    let Both { plain, room, page } = both;
    let counting = Counted {
        pages: room,
        reads: 0,
        stores: 0,
        takes: 0,
    };
    let counting = expect_look(alloc, &plain, counting, page, text, expected)?;
    Ok(Both {
        plain,
        room: counting.pages,
        page,
    })
}

/// Both forms after these lines.
fn after_lines(alloc: Global, both: Both, lines: &str) -> Result<Both, Fail> {
    let mut forms = Forms { both: Some(both) };
    run_lines(alloc, &mut forms, lines)?;
    forms.take()
}

/// A walk over a hundred names that reads each node. The version is in the room that comes back,
/// and can be written to.
#[test]
fn counting_look(rt: HostRuntime) -> Result<(), Fail> {
    let query = r#"name=="101*" && size>=2900"#;
    let both = filled(rt.alloc())?;
    let both = expect_counting(rt.alloc(), both, query, "nodes 170 222 274\n")?;
    let both = after_lines(rt.alloc(), both, "drop 222 => ok")?;
    let _both = expect_counting(rt.alloc(), both, query, "nodes 170 274\n")?;
    Ok(())
}

/// An equal volume. If memory runs out, it is copied again.
fn copy_of(plain: &Volume) -> Result<Volume, Refusal>
    ensures { IfOk result (λ copy. copy ≡ plain.now) }
{
    again!(plain.copy())
}

/// Fails unless the version from before the open write gives these nodes. It returns the room
/// unchanged.
fn expect_before(
    alloc: Global,
    plain: &Volume,
    room: VecRoom,
    page: u64,
    text: &str,
    expected: &str,
) -> Result<VecRoom, Fail>
    requires version { IsVersion (λ q. after_undo (⟦<VecRoom as Look>⟧.page_state room q))
        (⟦<VecRoom as Look>⟧.words room) page plain.now }
    ensures unchanged { IfOk result (λ r. IsUnchanged ⟦<VecRoom as Look>⟧.kept
        ⟦<VecRoom as Look>⟧.page_state ⟦<VecRoom as Look>⟧.words room r) }
{
    let before = Before { look: room };
    let before = expect_look(alloc, plain, before, page, text, expected)?;
    Ok(before.look)
}

/// Reads a version, and the copy from which a node was dropped, while the write is open.
fn read_copies(
    alloc: Global,
    original: &Volume,
    copy: &Volume,
    room: VecRoom,
    page: u64,
    new_page: u64,
) -> Result<VecRoom, Fail>
    requires before { IsVersion (λ q. after_undo (⟦<VecRoom as Look>⟧.page_state room q))
        (⟦<VecRoom as Look>⟧.words room) page original.now }
    requires version { IsVersion (⟦<VecRoom as Look>⟧.page_state room)
        (⟦<VecRoom as Look>⟧.words room) new_page copy.now }
    ensures version { IfOk result (λ r. IsVersion (⟦<VecRoom as Look>⟧.page_state r)
        (⟦<VecRoom as Look>⟧.words r) new_page copy.now) }
{
    let room = expect_before(alloc, original, room, page, "k==x", "nodes 1 3\n")?;
    let room = expect_look(alloc, copy, room, new_page, "k==x", "nodes 3\n")?;
    Ok(room)
}

/// Drops node 1 of the copy, and leaves the write open. It returns the copy, the room and the new
/// version page.
fn drop_first(
    original: &Volume,
    mut copy: Volume,
    mut room: VecRoom,
    page: u64,
) -> Result<(Volume, VecRoom, u64), Fail>
    requires same { copy ≡ original.now }
    requires version { IsVersion (⟦<VecRoom as Look>⟧.page_state room)
        (⟦<VecRoom as Look>⟧.words room) page original.now }
    requires start { IsWriteStart (⟦<VecRoom as Look>⟧.page_state room) }
    ensures before { IfOk result (λ r. IsVersion
        (λ q. after_undo (⟦<VecRoom as Look>⟧.page_state r.1 q)) (⟦<VecRoom as Look>⟧.words r.1)
        page original.now) }
    ensures version { IfOk result (λ r. IsVersion (⟦<VecRoom as Look>⟧.page_state r.1)
        (⟦<VecRoom as Look>⟧.words r.1) r.2 r.0) }
{
    if original.next() > u64::MAX - 65 {
        return Err(Fail::new("no node number is left"));
    }
    let ops = [Op::Drop(1)];
    match apply_pages(original, &mut room, page, &ops) {
        Ok((new_page, dones)) => {
            accepts(&mut copy, &ops, dones.as_slice())?;
            Ok((copy, room, new_page))
        }
        Err(_) => Err(Fail::new("the drop is refused")),
    }
}

/// Keeps the write, and reads the copy.
fn read_kept(alloc: Global, copy: &Volume, mut room: VecRoom, page: u64) -> Result<(), Fail>
    requires version { IsVersion (⟦<VecRoom as Look>⟧.page_state room)
        (⟦<VecRoom as Look>⟧.words room) page copy.now }
{
    room.keep();
    let _room = expect_look(alloc, copy, room, page, "k==x", "nodes 3\n")?;
    Ok(())
}

/// Drops node 1 of a copy. Until the write is kept, the old version page still encodes the
/// original.
fn drop_of_copy(alloc: Global, both: Both) -> Result<(), Fail> {
    let Both {
        plain: original,
        room,
        page,
    } = both;
    let copy = copy_of(&original)?;
    let (copy, room, new_page) = drop_first(&original, copy, room, page)?;
    let room = read_copies(alloc, &original, &copy, room, page, new_page)?;
    read_kept(alloc, &copy, room, new_page)
}

#[test]
fn volume_copy(rt: HostRuntime) -> Result<(), Fail> {
    let both = after_lines(rt.alloc(), Both::new(rt.alloc(), 64)?, EQUAL_VALUES)?;
    drop_of_copy(rt.alloc(), both)
}
