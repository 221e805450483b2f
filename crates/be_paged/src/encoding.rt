//! The encoding of a version page.
ghost use Rattle.std.specs.Prelude.{◌≡◌, ℕ, ◌+◌, ◌*◌, ◌<◌};
ghost use Rattle.be_paged.specs.Imports.{contents_of, IsVersionPage};

/// A law: the contents of a version page (its next number, roots and indices) determine every word
/// that it uses. The function does nothing.
pub fn one_encoding()
    ensures { (words others : ℕ → ℕ) → IsVersionPage words → IsVersionPage others
        → contents_of words ≡ contents_of others →
        (i : ℕ) → i < 4 + 11 * words 1 → words i ≡ others i }
{}
