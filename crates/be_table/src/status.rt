//! A table's report on itself: how full it is, and which pass has the oldest pin.
ghost use Rattle.std.specs.Prelude.{◌≡◌, ◌++◌, ◌∷◌, [], ℕ, List, length};
ghost use Rattle.be_table.specs.Statuses.{IsOldest};

/// A version number in a reader slot, and the pass that published it there.
#[derive(Clone, Copy)]
pub struct Announcement {
    /// The number. The pass is pinned to that version or a later one, or is about to be.
    pub number: u64,
    /// The pass's number.
    pub pass: u64,
}

/// How full a table is, and which pin is the oldest.
#[derive(Clone, Copy)]
pub struct Status {
    /// The pages in the pool.
    pub pages: u64,
    /// The pages that a write may take.
    pub free: u64,
    /// The pages of older versions that no write may take yet, because some pass has published the
    /// number of such a version or of an older one.
    pub retired: u64,
    /// The entries in the journal.
    pub entries: u64,
    /// The most entries that the journal may hold.
    pub commits: u64,
    /// The lowest number in a reader slot, and the first pass that has published it. `None` if all
    /// slots are empty.
    pub oldest: Option<Announcement>,
}

/// The result of a scan: the oldest active reader and the oldest announcement. The oldest active
/// reader is the lowest of the current number and the numbers in the reader slots.
#[derive(Clone, Copy)]
pub(crate) struct Found {
    pub least: u64,
    pub oldest: Option<Announcement>,
}

/// Returns the older of `oldest` and the announcement of one more pass, whose slot holds `found`.
pub(crate) fn older(oldest: Option<Announcement>, found: u64, pass: u64) -> Option<Announcement>
    ensures { (words : List ℕ) → length words ≡ pass → IsOldest words oldest
        → IsOldest (words ++ found ∷ []) result }
{
    if found == 0 {
        return oldest;
    }
    let number = found - 1;
    match oldest {
        None => Some(Announcement { number, pass }),
        Some(known) => {
            if number < known.number {
                Some(Announcement { number, pass })
            } else {
                Some(known)
            }
        }
    }
}
