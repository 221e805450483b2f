//! Laws about whole trees: those that a write doesn't touch, those that it replaces, and those that
//! existed before it.
//!
//! A write takes pages, fills them and gives pages up; `Swaps` says for each page what happened to
//! it. These laws say what that means for whole trees. Each function's body is empty; its contract
//! is the law, which a caller gets by calling the function.
ghost use Rattle.std.specs.Prelude.{◌≡◌, ℕ, ◌<◌, List, ◌∷◌, ◌++◌};
ghost use Rattle.be_pages.specs.declared.room.PageState.{PageState as AnyPageState};
ghost use Rattle.be_pages.specs.Pages.{after_keep, Swaps, times};
ghost use Rattle.be_tree_reading.specs.Forest.{AreTrees, IsUndone, IsWriteStart};
ghost use Rattle.be_tree_reading.specs.Forest.{KeepsTree, Replaces};
ghost use Rattle.be_tree_reading.specs.Tree.{IsTree, pages};

use be_pages::Look;

/// A tree that existed when the write began exists again after the write is undone, with the same
/// pairs and pages.
pub fn tree_undone()
    ensures { (start undone : ℕ → AnyPageState) (before words : ℕ → ℕ → ℕ) (root : ℕ)
        → IsWriteStart start → IsUndone start undone before words
        → IsTree start before root → KeepsTree undone before words root }
{}

/// A tree that the write didn't touch is unchanged, since none of its pages was replaced.
pub fn tree_beside<L: Look>()
    ensures { (before after : List ℕ) (old new : L) (root : ℕ)
        → Swaps L.kept L.page_state L.words before after old new
        → IsTree (L.page_state old) (L.words old) root
        → ((q : ℕ) → 0 < times q (pages (L.words old) root) → times q before ≡ 0)
        → KeepsTree (L.page_state new) (L.words old) (L.words new) root }
{}

/// If one of several trees is replaced, the others keep their pairs, and all of them are well
/// formed and share no page. A tree that was cleared is replaced by the root 0.
pub fn tree_replaced<L: Look>()
    ensures { (front back : List ℕ) (root new_root : ℕ) (old new : L)
        → AreTrees (L.page_state old) (L.words old) (front ++ root ∷ back)
        → IsTree (L.page_state new) (L.words new) new_root
        → Swaps L.kept L.page_state L.words (pages (L.words old) root)
        (pages (L.words new) new_root) old new
        → Replaces L.kept L.page_state L.words front back root new_root old new }
{}

/// A tree remains well formed when its write is kept.
pub fn tree_kept()
    ensures { (page_state kept : ℕ → AnyPageState) (words : ℕ → ℕ → ℕ) (root : ℕ)
        → ((q : ℕ) → kept q ≡ after_keep (page_state q))
        → IsTree page_state words root → IsTree kept words root }
{}
