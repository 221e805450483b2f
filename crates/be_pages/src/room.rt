//! The traits of page readers and page writers.
//!
//! # Page states
//! The state of a page in a write (`PageState`) is a single function of the page. So the sets of
//! pages that can be read, taken or given up can't disagree. Ghost members give this function, the
//! words of each page, and the facts that no call changes. None of them says where the words are
//! stored.
ghost use Rattle.std.specs.Prelude.{◌≡◌, ℕ, ◌<◌, ◌^◌, ◌==◌, ◌≢◌, if◌then◌else◌, IsTrue, Bool, IfOk};
ghost use Rattle.std.specs.Prelude.{IfErr, OnErr};
ghost use Rattle.be_pages.specs.declared.room.PageState.{PageState as AnyPageState};
ghost use Rattle.be_pages.specs.declared.room.PageState.TheVariants.{Free, Taken, Filled};
ghost use Rattle.be_pages.specs.Pages.{is_readable, is_taken, is_held, after_give_up, SetsStateAt};
ghost use Rattle.be_pages.specs.Refusal.{IsFullOf};

use be_value::Refusal;

/// The number of words in a page.
pub const PAGE_WORDS: usize = 512;

/// The state of a page in a write.
#[derive(Clone, Copy, Debug, PartialEq, Eq)]
pub enum PageState {
    /// Neither readable nor taken.
    Free,
    /// Readable since before this write.
    Old,
    /// Readable since before this write, and given up by it.
    GivenUp,
    /// Taken by this write, and not filled yet.
    Taken,
    /// Taken by this write, with at least one word filled.
    Filled,
}

/// A page reader.
pub trait Look {
    /// The facts about a reader that no call changes.
    ghost Kept: { Type 0 };

    ghost kept: { Self → Kept };

    /// Whether a reader with these facts may be written to, that is, whether its write is open.
    ghost is_open: { Kept → Bool };

    /// The state of each page.
    ghost page_state: { Self → ℕ → AnyPageState };

    /// The word at a place in a page.
    ghost words: { Self → ℕ → ℕ → ℕ };

    /// Reads a word of a page that was in use when the write began, or that the write has taken.
    fn word(&mut self, page: u64, i: usize) -> u64
        requires readable { IsTrue (is_readable (page_state self.old page)) }
        requires in_page { i < 512 }
        ensures value { result ≡ words self.old page i }
        ensures kept { kept self.new ≡ kept self.old }
        ensures page_state { page_state self.new ≡ page_state self.old }
        ensures words { words self.new ≡ words self.old };

    // A page that isn't free has a number below 2^32. So a root, which is its page plus one, still
    // fits when the tree gains a level.
    ghost pages_small: { (reader : Self) (q : ℕ) → page_state reader q ≢ Free → q < 2 ^ 32 };
}

/// A page writer: a page reader that takes, fills and gives up pages, for one write.
pub trait Room: Look {
    /// What holds of the number in the error if the writer has just returned `Full`.
    ghost full: { Self → ℕ → Type 0 };

    /// Returns `true` if this write has taken a readable page; such a page may be filled again in
    /// place. It doesn't read the page's words.
    fn is_taken(&self, page: u64) -> bool
        requires readable { IsTrue (is_readable (Self.page_state self.now page)) }
        ensures { result ≡ is_taken (Self.page_state self.now page) };

    /// Takes a free page. Its words are meaningless until they are filled.
    fn take(&mut self) -> Result<u64, Refusal>
        requires open { IsTrue (Self.is_open (Self.kept self.old)) }
        ensures page { IfOk result (λ page. (page < 2 ^ 32)
            × (Self.page_state self.old page ≡ Free)) }
        ensures ok { IfOk result (λ page. SetsStateAt (Self.page_state self.old)
            (Self.page_state self.new) page Taken) }
        ensures err { OnErr result (Self.page_state self.new ≡ Self.page_state self.old) }
        ensures full { IfErr result (IsFullOf (full self.new)) }
        ensures words { Self.words self.new ≡ Self.words self.old }
        ensures kept { Self.kept self.new ≡ Self.kept self.old };

    /// Takes a free page, as `take` does, to hold a copy of `page`. It may prefer a free page that
    /// already has most of the words.
    fn take_like(&mut self, page: u64) -> Result<u64, Refusal>
        requires open { IsTrue (Self.is_open (Self.kept self.old)) }
        ensures page { IfOk result (λ page. (page < 2 ^ 32)
            × (Self.page_state self.old page ≡ Free)) }
        ensures ok { IfOk result (λ page. SetsStateAt (Self.page_state self.old)
            (Self.page_state self.new) page Taken) }
        ensures err { OnErr result (Self.page_state self.new ≡ Self.page_state self.old) }
        ensures full { IfErr result (IsFullOf (full self.new)) }
        ensures words { Self.words self.new ≡ Self.words self.old }
        ensures kept { Self.kept self.new ≡ Self.kept self.old };

    /// Writes one word of a page that this write has taken.
    fn fill(&mut self, page: u64, i: usize, word: u64)
        requires open { IsTrue (Self.is_open (Self.kept self.old)) }
        requires taken { IsTrue (is_taken (Self.page_state self.old page)) }
        requires in_page { i < 512 }
        ensures page_state { SetsStateAt (Self.page_state self.old) (Self.page_state self.new) page
            Filled }
        ensures place { (j : ℕ) → Self.words self.new page j
            ≡ (if j == i then word else Self.words self.old page j) }
        ensures others { (q : ℕ) → q ≢ page → Self.words self.new q ≡ Self.words self.old q }
        ensures kept { Self.kept self.new ≡ Self.kept self.old };

    /// Writes one word of a page in which this write has already filled a word. It does what `fill`
    /// does at a lower cost, because it needn't look up the page's place.
    fn refill(&mut self, page: u64, i: usize, word: u64)
        requires open { IsTrue (Self.is_open (Self.kept self.old)) }
        requires filled { Self.page_state self.old page ≡ Filled }
        requires in_page { i < 512 }
        ensures page_state { SetsStateAt (Self.page_state self.old) (Self.page_state self.new) page
            Filled }
        ensures place { (j : ℕ) → Self.words self.new page j
            ≡ (if j == i then word else Self.words self.old page j) }
        ensures others { (q : ℕ) → q ≢ page → Self.words self.new q ≡ Self.words self.old q }
        ensures kept { Self.kept self.new ≡ Self.kept self.old };

    /// Gives a page up. A page that this write took is free immediately; any other page keeps its
    /// words until the write is kept.
    fn give_up(&mut self, page: u64)
        requires open { IsTrue (Self.is_open (Self.kept self.old)) }
        requires held { IsTrue (is_held (Self.page_state self.old page)) }
        ensures page_state { SetsStateAt (Self.page_state self.old) (Self.page_state self.new) page
            (after_give_up (Self.page_state self.old page)) }
        ensures words { Self.words self.new ≡ Self.words self.old }
        ensures kept { Self.kept self.new ≡ Self.kept self.old };
}
