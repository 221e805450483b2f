//! Reads many attributes in one call, into the caller's buffers.
ghost use Rattle.std.specs.Prelude.{◌≡◌, ◌*◌, ◌^◌, ◌≤◌, ℕ, length, map as each};
ghost use Rattle.be_store.specs.Imports.{attribute, name_in, IsReadInto, ReportsColumns};
ghost use Rattle.be_store.specs.Passes.{HasRead, IsPassOf, IsPinnedTo, volume_pinned};

use crate::{Pass, Store};
use be_paged::{Cell, HeldName, columns, get_into};

impl Store {
    /// Reads the attributes with the given names from each of the nodes in the pinned version.
    /// Writes one cell per node and name: first all cells of the first node, then all of the
    /// second, and so on. The bytes of all strings are concatenated in `bytes`. Writes as many
    /// cells and bytes as fit, and returns the number of bytes that are needed for all strings.
    ///
    /// A cell holds the attribute's type code, its number, and the offset and length of its bytes.
    /// If the node has no such attribute, the cell holds the number of `NoAttr`; if the node
    /// doesn't exist, that of `NoNode`. No memory is allocated. A node costs one descent of a tree
    /// if the names are in ascending order and its attributes with these names lie only a few items
    /// apart. A name that the node lacks may cost one more descent, and so does a node that has
    /// none of them.
    pub fn columns(
        &self,
        pass: &mut Pass,
        nodes: &[u64],
        names: &[HeldName],
        cells: &mut [Cell],
        bytes: &mut [u8],
    ) -> u64
        requires pass { IsPassOf self.now pass.old }
        requires pinned { (n : ℕ) × IsPinnedTo pass.old.knows n }
        requires few { length nodes.now * length names.now ≤ 2 ^ 32 }
        ensures pass { IsPassOf self.now pass.new × HasRead pass.old.knows pass.new.knows }
        ensures reported { ReportsColumns (volume_pinned pass.old.knows) nodes.now
            (each name_in names.now) cells.old cells.new bytes.old bytes.new result }
    {
        let (mut look, page) = self.reader(pass);
        let needed = columns(&mut look, page, nodes, names, cells, bytes);
        *pass = look.into_seat();
        needed
    }

    /// Returns an attribute of a node in the pinned version as a cell, or `None` if the node
    /// doesn't have it. If the attribute is a string, its bytes are written to the start of
    /// `bytes`, as many as fit. Costs one descent of a tree and allocates no memory.
    #[inline(always)]
    pub fn get_into(
        &self,
        pass: &mut Pass,
        node: u64,
        name: &HeldName,
        bytes: &mut [u8],
    ) -> Option<Cell>
        requires pass { IsPassOf self.now pass.old }
        requires pinned { (n : ℕ) × IsPinnedTo pass.old.knows n }
        ensures pass { IsPassOf self.now pass.new × HasRead pass.old.knows pass.new.knows }
        ensures value { IsReadInto (attribute (volume_pinned pass.old.knows) node
            (name_in name.now)) result bytes.old bytes.new }
    {
        let (mut look, page) = self.reader(pass);
        let cell = get_into(&mut look, page, node, name, bytes);
        *pass = look.into_seat();
        cell
    }
}
