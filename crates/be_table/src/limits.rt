//! The limits of a table, set once when the table is created.
ghost use Rattle.std.specs.Prelude.{◌≡◌, true, false};
ghost use Rattle.be_table.specs.Setting.{AreBad, IsPossible, IsWithin};

/// How large a table may grow. Nothing in it exceeds these numbers.
#[derive(Clone, Copy)]
pub struct Limits {
    /// The pages in the pool, of 512 words each: 8 to 16,384. A table that is opened as a large one
    /// has up to 16,777,216.
    pub pages: u64,
    /// The passes, each with its own seat: 1 to 64.
    pub passes: u64,
    /// The entries that the journal may hold: 1 to 4,294,967,295.
    pub commits: u64,
}

impl Limits {
    /// The minimum number of pages.
    pub const MIN_PAGES: u64 = 8;

    /// The maximum number of pages of a table that isn't opened as a large one.
    pub const MAX_PAGES: u64 = 16384;

    /// The maximum number of pages of any table.
    pub const LARGEST_POOL: u64 = 16_777_216;

    /// The maximum number of passes.
    pub const MAX_PASSES: u64 = 64;

    /// The maximum number of entries, chosen so that a version's number fits into half a word.
    pub const MAX_COMMITS: u64 = 4294967295;

    /// Returns `true` if `open` takes these limits.
    pub fn are_within(&self) -> bool
        ensures within { result ≡ true → IsWithin self.now }
        ensures possible { result ≡ true → IsPossible self.now }
        ensures bad { result ≡ false → AreBad self.now }
    {
        self.pages <= Limits::MAX_PAGES && self.are_possible()
    }

    /// Returns `true` if `open_large` takes these limits.
    pub fn are_possible(&self) -> bool
        ensures possible { result ≡ true → IsPossible self.now }
        ensures bad { result ≡ false → ¬ (IsPossible self.now) }
    {
        if self.pages < Limits::MIN_PAGES || self.pages > Limits::LARGEST_POOL {
            return false;
        }
        if self.passes == 0 || self.passes > Limits::MAX_PASSES {
            return false;
        }
        self.commits != 0 && self.commits <= Limits::MAX_COMMITS
    }
}
