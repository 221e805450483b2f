//! The words of a page, in an example that uses public calls.
ghost use Rattle.be_tree_reading.specs.Tree.{IsTree};

use super::counting_look::room_of;
use be_pages::Look;
use be_tree::insert;
use std::test::Fail;

/// The first six words of a tree's root page, or zeros for the empty tree.
fn first_words<L: Look>(look: &mut L, root: u64) -> [u64; 6]
    requires { IsTree (L.page_state look.old) (L.words look.old) root }
{
    if root == 0 {
        return [0; 6];
    }
    let page = root - 1;
    [
        look.word(page, 0),
        look.word(page, 1),
        look.word(page, 2),
        look.word(page, 3),
        look.word(page, 4),
        look.word(page, 5),
    ]
}

/// A leaf that holds the attribute `size` of node 1, the LONG 5: its level, its count, and the
/// item's four words. The last word is padded with zeros after the payload.
#[test]
fn words_of_an_attribute(rt: HostRuntime) -> Result<(), Fail> {
    let mut room = room_of(rt.alloc(), 8)?;
    let key = b"\0\0\0\0\0\0\0\x01size";
    let root = insert(&mut room, 0, key, b"\x02\0\0\0\x05")?;
    let words = first_words(&mut room, root);
    let expected = [
        0,
        1,
        0x0000_000c_0000_0005,
        0x0000_0000_0000_0001,
        0x7369_7a65_0200_0000,
        0x0500_0000_0000_0000,
    ];
    assert!(rt; words.as_slice() == expected.as_slice());
    Ok(())
}
