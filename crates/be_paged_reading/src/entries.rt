//! The indices of a loaded version, in ascending order of their names.
ghost use Rattle.std.specs.Prelude.{◌≡◌, All, ◌<◌, ◌≤◌, IfOk, IfErr, map, length, slice_index_or};
ghost use Rattle.be_paged_reading.specs.Imports.{IsName};
ghost use Rattle.be_paged_reading.specs.Entries.{with_root};
ghost use Rattle.be_paged_reading.specs.Entry.{Entry as AnyEntry};
ghost use Rattle.be_paged_reading.specs.Page.{IsNamedAt, IsGapAt};

use crate::entry::Entry;
use arrayvec::ArrayVec;
use be_value::{Kind, Name};
use std::alloc::{AllocError, Global};
use std::cmp::Ordering;

/// Returns the position of the index with this name among the entries. If there is none, the error
/// is the position at which it would be inserted.
pub fn search(entries: &[Entry], name: &Name) -> Result<usize, usize>
    ensures found { IfOk result (IsNamedAt entries.now name.now) }
    ensures absent { IfErr result (IsGapAt entries.now name.now) }
{
    for (i, entry) in entries.iter().enumerate() {
        match entry.compare(name) {
            Ordering::Less => {}
            Ordering::Equal => return Ok(i),
            Ordering::Greater => return Err(i),
        }
    }
    Err(entries.len())
}

/// Returns the kind and the root of the index at a position.
pub fn index_at(entries: &[Entry], at: usize) -> (Kind, u64)
    requires { at < length entries.now }
    ensures kind { (d : AnyEntry) → result.0 ≡ (slice_index_or entries.now at d).kind }
    ensures root { (d : AnyEntry) → result.1 ≡ (slice_index_or entries.now at d).root }
{
    let entry = &entries[at];
    (entry.kind(), entry.root())
}

/// Changes the root of the index at a position.
pub fn set_root(entries: &mut ArrayVec<Entry, 32>, at: usize, root: u64)
    requires { at < length entries.old.items }
    ensures { (d : AnyEntry) → entries.new.items
        ≡ with_root entries.old.items at (slice_index_or entries.old.items at d) root }
{
    entries[at].set_root(root);
}

/// Lists the names and kinds of the indices.
pub(crate) fn kinds(alloc: Global, entries: &[Entry]) -> Result<Vec<(Name, Kind)>, AllocError>
    requires named { All (λ e. IsName e.name) entries.now }
    ensures { IfOk result (λ list. list.items ≡ map (λ e. (e.name, e.kind)) entries.now) }
{
    let mut list = Vec::new(alloc);
    for entry in entries {
        list.push((entry.name(), entry.kind()))?;
    }
    Ok(list)
}
