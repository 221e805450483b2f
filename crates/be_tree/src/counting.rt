//! How many pages trees have, and how many levels.
//!
//! Each page except a root has at least six items, so a tree has few pages. These functions are
//! laws: their bodies are empty, and their contracts are the laws.
ghost use Rattle.std.specs.Prelude.{ℕ, ◌+◌, ◌*◌, ◌≤◌, List, length};
ghost use Rattle.be_pages.specs.declared.room.PageState.{PageState as AnyPageState};
ghost use Rattle.be_pages.specs.Pages.{Swaps};
ghost use Rattle.be_tree.specs.Counting.{CanBeHigh, HasInHand, TakesAtMost, TakesFewer, in_hand};
ghost use Rattle.be_tree.specs.Counting.{pairs_of_all};
ghost use Rattle.be_tree_reading.specs.Forest.{AreTrees, pages_of};
ghost use Rattle.be_tree_reading.specs.Tree.{IsTree, level_of_root, pages, pairs};

use be_pages::Look;

/// A tree has at most one page per five of its pairs, plus one for the remainder.
pub fn tree_pages()
    ensures { (page_state : ℕ → AnyPageState) (words : ℕ → ℕ → ℕ) (root : ℕ)
        → IsTree page_state words root → 5 * length (pages words root) ≤ length (pairs words root)
        + 4 }
{}

/// The same bound for several trees, each of which may have a remainder.
pub fn forest_pages()
    ensures { (page_state : ℕ → AnyPageState) (words : ℕ → ℕ → ℕ) (roots : List ℕ)
        → AreTrees page_state words roots
        → 5 * length (pages_of words roots) ≤ length (pairs_of_all words roots)
        + 4 * length roots }
{}

/// A tree whose root is above the leaves, on level n, has at least 2 * 6^n pairs.
pub fn tree_level()
    ensures { (page_state : ℕ → AnyPageState) (words : ℕ → ℕ → ℕ) (root : ℕ)
        → IsTree page_state words root → CanBeHigh (level_of_root words root)
        (length (pairs words root)) }
{}

/// Two changes in sequence take at most the sum of what each takes.
pub fn takes_add()
    ensures both { (a b : ℕ) (s t u : ℕ → AnyPageState) → TakesAtMost a s t → TakesAtMost b t u
        → TakesAtMost (a + b) s u }
    ensures refused { (a b : ℕ) (s t u : ℕ → AnyPageState) → TakesAtMost a s t → TakesFewer b t u
        → TakesFewer (a + b) s u }
{}

/// If pages in use are replaced, the number of pages that a write gains is at most the number in
/// use afterwards. If all pages that the write held were among those in use, they still are.
pub fn swaps_take<L: Look>()
    ensures takes { (before after : List ℕ) (old new : L)
        → Swaps L.kept L.page_state L.words before after old new
        → TakesAtMost (length after) (L.page_state old) (L.page_state new) }
    ensures has { (before after : List ℕ) (old new : L)
        → Swaps L.kept L.page_state L.words before after old new
        → HasInHand (L.page_state old) before → HasInHand (L.page_state new) after }
{}

/// A write holds no more pages than a list that contains them all.
pub fn few_in_hand()
    ensures { (page_state : ℕ → AnyPageState) (ps : List ℕ) → HasInHand page_state ps → (n : ℕ)
        → in_hand n page_state ≤ length ps }
{}
