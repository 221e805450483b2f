//! Laws about pages.
//!
//! These functions do nothing; their contracts state the laws.
ghost use Rattle.std.specs.Prelude.{◌≡◌, ◌≢◌, ◌<◌, ℕ, Bool, List, None, Ok, Some, drop, length};
ghost use Rattle.std.specs.Prelude.{slice_index};
ghost use Rattle.be_order.specs.Imports.{index_kind, Formula, IsSound, Kind, Option, State};
ghost use Rattle.be_order.specs.Ordered.{Page, after, in_order, nodes_of, ordered, page_of};
ghost use Rattle.be_order.specs.Pages.{ArePages, nodes_in};

/// The entries after the cursor that a page leaves are the entries after the cursor that it started
/// from, minus those on the page. So within one snapshot, the next page starts with the node after
/// the last node on this page.
pub fn next_page_goes_on()
    ensures { (s : State) (by nodes : List ℕ) (descending : Bool) (cursor : Option (List ℕ))
        (most : ℕ) →
        let list = in_order s by descending nodes in
        let ahead = after descending cursor list in
        after descending (page_of cursor most ahead).cursor list ≡ drop most ahead }
{}

/// If the pages of one snapshot are requested one after another, each with the cursor that the
/// previous page left, then together they form the whole list in order, and each node occurs once.
/// If pages may have at least one node, the sequence of pages ends.
pub fn pages_are_the_whole()
    ensures whole { (s : State) (f : Formula) (by : List ℕ) (descending : Bool) (most : ℕ)
        (list : List (List ℕ × ℕ)) (pages : List Page) → ordered s f by descending ≡ Ok list
        → ArePages s f by descending most None pages
        → nodes_in pages ≡ nodes_of list }
    ensures once { (s : State) (f : Formula) (by : List ℕ) (kind : Kind) (descending : Bool)
        (list : List (List ℕ × ℕ)) → IsSound s → index_kind s by ≡ Some kind
        → ordered s f by descending ≡ Ok list
        → (i j : ℕ) → i < j → j < length (nodes_of list)
        → slice_index (nodes_of list) i ≢ slice_index (nodes_of list) j }
    ensures end { (s : State) (f : Formula) (by : List ℕ) (descending : Bool) (most : ℕ)
        (list : List (List ℕ × ℕ)) → ordered s f by descending ≡ Ok list → 0 < most
        → (pages : List Page) × ArePages s f by descending most None pages }
{}
