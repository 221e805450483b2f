//! What a pass knows. These types are used only in contracts: no value of them is ever created.
//!
//! A seat carries its pass's knowledge as ghost data. Each step changes only the knowledge of the
//! pass that steps. What a pass knows remains true whatever other passes do. It consists of a
//! prefix of the journal, the pass's own entries, and the image of the version to which the pass is
//! pinned. While the pass holds the lock, it also includes the place of each page and the words of
//! all pages.
use crate::setting::Setting;
use be_core::Phase;
use be_journal::Entry;
use be_pages::Place;
use std::collections::LinkedList;

/// A journal entry with the version that it published: the version page, and all pages of the
/// version.
pub struct Commit {
    pub entry: Entry,
    pub page: u64,
    pub reach: LinkedList<u64>,
}

/// A move of the reclamation machine. The first field is the pass that makes it. A move is either
/// one of the machine's events or the writer's return of a page. A read changes nothing in the
/// machine, so it isn't a move.
pub enum Move {
    Look(u64),
    Announce(u64),
    LookAgain(u64),
    Unpin(u64),
    Lock(u64),
    /// Reads the reader slot of the pass in the second field.
    Scan(u64, u64),
    /// Writes a word at an index of a page.
    Fill(u64, u64, u64, u64),
    /// Publishes a version page, and gives up the listed pages.
    Publish(u64, u64, LinkedList<u64>),
    Unlock(u64),
    /// Makes a page that the write had taken free again.
    Return(u64, u64),
}

pub struct Knowledge {
    pub number: u64,
    /// The limits of the table, and what it began with.
    pub limits: Setting,
    /// The part of the journal that the pass has seen, with its versions.
    pub seen: LinkedList<Commit>,
    /// The entries of its own accepted writes.
    pub mine: LinkedList<Entry>,
    /// How far the pass has got in pinning a version.
    pub phase: Phase,
    /// The table's words at the time of the pin; those of the pinned version's pages don't change.
    pub image: LinkedList<u64>,
    /// Whether it holds the lock.
    pub writes: bool,
    /// How many reader slots its scan has read, and the lowest number found so far. A whole scan
    /// resets the count to 0.
    pub scanned: u64,
    pub least: u64,
    /// Whether it has published its write.
    pub published: bool,
    /// While it holds the lock: the place of each page, and the table's words. Of these words,
    /// those of the pages remain accurate.
    pub places: LinkedList<Place>,
    pub words: LinkedList<u64>,
    /// The pages that its write had taken and not yet returned when its last whole scan ended.
    pub held: LinkedList<u64>,
    /// The passes that it found holding the lock in its failed attempts, the most recent first.
    pub writers: LinkedList<u64>,
    /// The number of steps on words that it has taken.
    pub steps: u64,
    /// The moves of all passes up to its own last move.
    pub history: LinkedList<Move>,
}

/// What a seat knows: the knowledge of one pass, of several passes while seats are split or joined,
/// or of no pass. It may also have prefixes of the journal instead of a pass, as a witness's seat
/// does.
pub struct View {
    pub passes: LinkedList<Knowledge>,
    pub fronts: LinkedList<LinkedList<Commit>>,
}
