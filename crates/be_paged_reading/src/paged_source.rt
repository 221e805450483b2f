//! A version as an index reader for queries.
//!
//! A walk over an index requests one key after another, so the reader keeps a cursor in the tree
//! that it walked last, and the location of the last key that it returned. A request for the key
//! after that one continues from the cursor without a descent. The nodes in a range are read leaf
//! by leaf, and strings are tested the same way, without unpacking keys. A query uses the same
//! index repeatedly, so the reader remembers the last index that it found.
ghost use Rattle.std.specs.Prelude.{◌≡◌, true, IfErr, IfOk, OnOk};
ghost use Rattle.be_paged_reading.specs.Imports.{pairs, pairs_from, reads_texts, remaining, Cstr};
ghost use Rattle.be_paged_reading.specs.Imports.{IsCursor, IsTree, IsUnchanged, OutOfMemory, State};
ghost use Rattle.be_paged_reading.specs.Imports.{StillAnswers};
ghost use Rattle.be_paged_reading.specs.Page.{contents_of};
ghost use Rattle.be_paged_reading.specs.Source.{HasNumbers, HasPassing, IsIndexOf, LiesAfter};
ghost use Rattle.be_paged_reading.specs.Version.{HasVersion, IsVersion};

use crate::on_page::{FoundIndex, known_index};
use crate::picking::passing_in_order;
use crate::reading::{get, holds_in};
use crate::texts::nodes_passing;
use arrayvec::ArrayVec;
use be_pages::Look;
use be_plan::{KeyRange, KeyTest, Source, TextTest};
use be_query::Comparison;
use be_tree_reading::{
    Cursor, Way, about_within, has_key, is_key_at, key_at, numbers_in_order, numbers_within,
};
use be_value::{Kind, Name, Refusal, Value};

/// A position at which there is no index.
const NOWHERE: usize = 32;

/// An index reader for one version, consisting of the page of the version and a page reader. It
/// uses no other memory.
#[derive(Drop)]
pub struct PagedSource<L> {
    look: L,
    page: u64,
    known: Option<FoundIndex>,
    cursor: Cursor,
    place: usize,
    last: (u64, usize),
}

/// Returns `true` if the keys of an index of this kind contain strings.
fn has_texts(kind: Kind) -> bool
    ensures { result ≡ true → kind ≡ Cstr }
{
    kind == Kind::Cstr
}

/// Returns `true` if the keys of an index of this kind contain what the test reads.
fn is_testable(kind: Kind, test: KeyTest<'_, '_>) -> bool
    ensures { result ≡ true → reads_texts test.entry ≡ true → kind ≡ Cstr }
{
    match test {
        KeyTest::Text(_) => has_texts(kind),
        KeyTest::Marked(_) => true,
    }
}

/// Estimates the number of keys in a tree. A page contains 6 to 12 items; the estimate assumes
/// eight for every page below the root.
fn about_keys<L: Look>(look: &mut L, root: u64) -> u64
    requires tree { IsTree (L.page_state look.old) (L.words look.old) root }
    ensures unchanged { IsUnchanged L.kept L.page_state L.words look.old look.new }
{
    if root == 0 {
        return 0;
    }
    let level = look.word(root - 1, 0);
    let count = look.word(root - 1, 1);
    count.saturating_mul(8u64.saturating_pow(level.min(32) as u32))
}

/// Creates an index reader for the version on this page. Nothing is read yet. The reader holds the
/// page reader until `into_look` is called.
pub fn source<L: Look>(look: L, version_page: u64) -> PagedSource<L>
    requires version { HasVersion L.page_state L.words look version_page }
    ensures answers { (volume : State)
        → IsVersion (L.page_state look) (L.words look) version_page volume
        → ⟦<PagedSource<L> as Source>⟧.answers_for result volume }
    ensures look { ⟦<PagedSource<L> as Source>⟧.kept result
        ≡ (L.kept look, (L.page_state look, L.words look)) }
{
    PagedSource {
        look,
        page: version_page,
        known: None,
        cursor: Cursor::new(),
        place: NOWHERE,
        last: (0, 0),
    }
}

impl<L: Look> PagedSource<L> {
    /// Returns the page reader, for which all facts still hold.
    pub fn into_look(self) -> L
        ensures look { (L.kept result, (L.page_state result, L.words result))
            ≡ ⟦<PagedSource<L> as Source>⟧.kept self }
    {
        self.look
    }

    /// Moves the cursor to just before the first key of an index that is at or after `from`, or
    /// strictly after it. If the cursor is already just past `from`, it isn't moved.
    fn walk_to(&mut self, index: FoundIndex, from: &[u8], after: bool)
        requires index { IsIndexOf (contents_of (L.words self.old.look self.old.page)).entries
            index }
        requires tree { IsTree (L.page_state self.old.look) (L.words self.old.look) index.root }
        requires beyond { LiesAfter (L.page_state self.old.look) (L.words self.old.look)
            (contents_of (L.words self.old.look self.old.page)).entries self.old.cursor
            self.old.place self.old.last.0 self.old.last.1 }
        ensures cursor { IsCursor (L.page_state self.new.look) (L.words self.new.look)
            self.new.cursor }
        ensures rest { remaining (L.words self.new.look) self.new.cursor
            ≡ pairs_from (pairs (L.words self.new.look) index.root) from.now after }
        ensures page { self.new.page ≡ self.old.page }
        ensures known { self.new.known ≡ self.old.known }
        ensures unchanged { IsUnchanged L.kept L.page_state L.words self.old.look self.new.look }
    {
        if after && index.place == self.place {
            let (page, at) = self.last;
            if is_key_at(&mut self.look, page, at, from) {
                return;
            }
        }
        self.cursor.seek(&mut self.look, index.root, from, after);
    }

    /// Walks along a way over the index with this name, and adds the numbers at the end of the
    /// first `most` keys, in the order of the walk. Adds nothing if there is no such index.
    pub fn numbers_in_order(
        &mut self,
        name: &Name,
        way: Way<'_>,
        most: usize,
        found: &mut Vec<u64>,
    ) -> Result<(), Refusal>
        requires { (volume : State) × ⟦<PagedSource<L> as Source>⟧.answers_for self.old volume }
        ensures memory { IfErr result (λ e. e ≡ OutOfMemory) }
        ensures added { OnOk result (HasNumbers (L.words self.old.look)
            (contents_of (L.words self.old.look self.old.page)).entries name.now way.entry most
            found.old.items found.new.items) }
        ensures stays { ⟦<PagedSource<L> as Source>⟧.kept self.new
            ≡ ⟦<PagedSource<L> as Source>⟧.kept self.old }
        ensures answers { StillAnswers ⟦<PagedSource<L> as Source>⟧.answers_for self.old self.new }
    {
        let Some(index) = known_index(&mut self.look, self.page, name, &mut self.known) else {
            return Ok(());
        };
        numbers_in_order(&mut self.look, index.root, way, most, found)?;
        Ok(())
    }

    /// Walks along a way over the index with this name and tests its keys. Replaces the content of
    /// the list with the nodes of the first `most` keys that pass, in the order of the walk, and
    /// returns `true`. If there is no such index, or if the test reads strings and the index has
    /// none, it returns `false` and leaves the list unchanged.
    pub fn passing_in_order(
        &mut self,
        name: &Name,
        way: Way<'_>,
        test: KeyTest<'_, '_>,
        most: usize,
        found: &mut Vec<u64>,
    ) -> Result<bool, Refusal>
        requires { (volume : State) × ⟦<PagedSource<L> as Source>⟧.answers_for self.old volume }
        ensures memory { IfErr result (λ e. e ≡ OutOfMemory) }
        ensures passing { IfOk result (λ tested. tested ≡ true → HasPassing (L.words self.old.look)
            (contents_of (L.words self.old.look self.old.page)).entries name.now way.entry
            test.entry most found.new.items) }
        ensures stays { ⟦<PagedSource<L> as Source>⟧.kept self.new
            ≡ ⟦<PagedSource<L> as Source>⟧.kept self.old }
        ensures answers { StillAnswers ⟦<PagedSource<L> as Source>⟧.answers_for self.old self.new }
    {
        let Some(index) = known_index(&mut self.look, self.page, name, &mut self.known) else {
            return Ok(false);
        };
        if !is_testable(index.kind, test) {
            return Ok(false);
        }
        passing_in_order(&mut self.look, index.root, way, test, most, found)?;
        Ok(true)
    }
}

impl<L: Look> Source for PagedSource<L> {
    ghost use Rattle.std.specs.Prelude.{ℕ};
    ghost use Rattle.be_paged_reading.specs.Imports.{AnyPageState};
    ghost use Rattle.be_paged_reading.specs.Source.{SourceOf};

    ghost Kept = { L.Kept × ((ℕ → AnyPageState) × (ℕ → ℕ → ℕ)) };

    ghost kept = { λ s. (L.kept s.look, (L.page_state s.look, L.words s.look)) };

    ghost answers_for = { λ s volume. SourceOf (L.page_state s.look) (L.words s.look) s.page s.known
        s.cursor s.place s.last.0 s.last.1 volume };

    ghost sound = { λ s volume is. is.version.sound };

    fn kind_of(&mut self, name: &Name) -> Option<Kind> {
        match known_index(&mut self.look, self.page, name, &mut self.known) {
            Some(index) => Some(index.kind),
            None => None,
        }
    }

    fn next_key(&mut self, name: &Name, from: &[u8], after: bool) -> Option<ArrayVec<u8, 264>> {
        let Some(index) = known_index(&mut self.look, self.page, name, &mut self.known) else {
            return None;
        };
        self.walk_to(index, from, after);
        self.place = NOWHERE;
        let (page, at) = self.cursor.step(&mut self.look)?;
        self.place = index.place;
        self.last = (page, at);
        Some(key_at(&mut self.look, page, at))
    }

    fn nodes_within(&mut self, keys: KeyRange<'_>, found: &mut Vec<u64>) -> Result<(), Refusal> {
        let Some(index) = known_index(&mut self.look, self.page, keys.name, &mut self.known) else {
            return Ok(());
        };
        numbers_within(&mut self.look, index.root, keys.low, keys.high, found)?;
        Ok(())
    }

    fn nodes_passing(
        &mut self,
        keys: KeyRange<'_>,
        test: &TextTest<'_>,
        found: &mut Vec<u64>,
    ) -> Result<bool, Refusal> {
        let Some(index) = known_index(&mut self.look, self.page, keys.name, &mut self.known) else {
            return Ok(false);
        };
        if !has_texts(index.kind) {
            return Ok(false);
        }
        nodes_passing(&mut self.look, index.root, keys.low, keys.high, test, found)?;
        Ok(true)
    }

    fn has_key(&mut self, name: &Name, key: &[u8]) -> bool {
        match known_index(&mut self.look, self.page, name, &mut self.known) {
            Some(index) => has_key(&mut self.look, index.root, key),
            None => false,
        }
    }

    // This isn't inlined, so that a caller that reads several values needs stack space for only
    // one.
    #[inline(never)]
    fn value(&mut self, node: u64, name: &Name) -> Option<Value> {
        get(&mut self.look, self.page, node, name)
    }

    fn holds(&mut self, node: u64, comparison: &Comparison) -> bool {
        let known = &mut self.known;
        holds_in(&mut self.look, self.page, node, comparison, None, known)
    }

    fn holds_tested(&mut self, node: u64, comparison: &Comparison, test: &TextTest<'_>) -> bool {
        let known = &mut self.known;
        holds_in(
            &mut self.look,
            self.page,
            node,
            comparison,
            Some(test),
            known,
        )
    }

    fn estimate(&mut self, name: &Name) -> u64 {
        match known_index(&mut self.look, self.page, name, &mut self.known) {
            Some(index) => about_keys(&mut self.look, index.root),
            None => 0,
        }
    }

    // It costs two descents, and is exact if the range is within one leaf.
    fn about(&mut self, keys: KeyRange<'_>) -> u64 {
        match known_index(&mut self.look, self.page, keys.name, &mut self.known) {
            Some(index) => about_within(&mut self.look, index.root, keys.low, keys.high),
            None => 0,
        }
    }
}
