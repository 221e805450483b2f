//! How many pages a version has.
ghost use Rattle.std.specs.Prelude.{ℕ, ◌+◌, ◌*◌, ◌≤◌, length};
ghost use Rattle.std.specs.FinMap as map;
ghost use Rattle.be_paged.specs.Imports.{items, reach, AnyPageState, IsVersion, State};

/// A law: a version has at most its version page plus, for each tree, one page per five items and
/// one for the remainder.
pub fn version_pages()
    ensures { (page_state : ℕ → AnyPageState) (words : ℕ → ℕ → ℕ) (page : ℕ) (volume : State)
        → IsVersion page_state words page volume
        → 5 * length (reach words page) ≤ items volume + 4 * map.len volume.indices + 9 }
{}
