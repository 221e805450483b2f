//! Positions in an order, as other languages hold them.
ghost use Rattle.std.specs.Prelude.{◌≡◌, ◌≤◌, IfErr, IfOk, IfSome, None, length};
ghost use Rattle.be_session.specs.Imports.{cursor_bytes};
ghost use Rattle.be_session.specs.Cursors.{IsCursorOf, IsLong, cursor_key};
ghost use Rattle.be_session.specs.declared.faults.Fault.TheVariants.{BadCursor};

use crate::Fault;
use arrayvec::ArrayVec;
use be_store::Kind;

/// The minimum length of a key, which is the length of its node.
const MINIMUM: u32 = 8;

/// The maximum length of a key: a string of 255 bytes, a zero byte, and the node.
const MOST: u32 = 264;

/// A position in the order of an index. `key` starts with the key at which a page ended, and `kind`
/// is the type code of the index's kind. All zeros mean the beginning.
#[repr(C)]
#[derive(Clone, Copy)]
pub struct Cursor {
    pub kind: u32,
    pub length: u32,
    pub key: [u8; 264],
}

impl Cursor {
    /// Returns the beginning of every order.
    pub fn beginning() -> Cursor
        ensures { (result.kind ≡ 0) × (result.length ≡ 0) }
    {
        Cursor {
            kind: 0,
            length: 0,
            key: [0; 264],
        }
    }

    /// Returns the key after which a page continues in an index of this kind, or `None` at the
    /// beginning. Returns `BadCursor` if the cursor has another kind, or if its key doesn't have 8
    /// to 264 bytes.
    pub(crate) fn position(&self, kind: Kind) -> Result<Option<ArrayVec<u8, 264>>, Fault>
        ensures ok { IfOk result (λ key. IsCursorOf kind self.now
            × (cursor_bytes key ≡ cursor_key self.now)) }
        ensures long { IfOk result (λ key. IsLong (cursor_bytes key)) }
        ensures err { IfErr result (λ e. (e ≡ BadCursor) × (¬ (IsCursorOf kind self.now))) }
    {
        if self.kind == 0 && self.length == 0 {
            return Ok(None);
        }
        if self.kind != kind.code() || self.length < MINIMUM || self.length > MOST {
            return Err(Fault::BadCursor);
        }
        let mut key = ArrayVec::new();
        key.try_extend_from_slice(&self.key[..self.length as usize])
            .unwrap();
        Ok(Some(key))
    }

    /// Moves the cursor to the key of a page's last node in an index of this kind. A page without
    /// nodes leaves the cursor unchanged.
    pub(crate) fn move_to(&mut self, kind: Kind, key: &Option<ArrayVec<u8, 264>>, nodes: usize)
        requires begins { IsCursorOf kind self.old }
        requires long { IsLong (cursor_bytes key.now) }
        requires none { cursor_bytes key.now ≡ None → cursor_key self.old ≡ None }
        requires stays { nodes ≡ 0 → cursor_bytes key.now ≡ cursor_key self.old }
        ensures kind { IsCursorOf kind self.new }
        ensures key { cursor_key self.new ≡ cursor_bytes key.now }
        ensures stays { nodes ≡ 0 → self.new ≡ self.old }
    {
        if nodes == 0 {
            return;
        }
        let Some(key) = key else {
            return;
        };
        let mut bytes = [0; 264];
        bytes[..key.len()].copy_from_slice(key.as_slice());
        *self = Cursor {
            kind: kind.code(),
            length: key.len() as u32,
            key: bytes,
        };
    }
}
