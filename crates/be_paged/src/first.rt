//! The version page of an empty volume.
ghost use Rattle.std.specs.Prelude.{◌≡◌, ℕ, ◌<◌, IsTrue, slice_index};
ghost use Rattle.be_paged.specs.Imports.{empty, is_kept, IsVersion, PageState};

use be_pages::PAGE_WORDS;

/// Returns the words of a version page that encodes the empty volume, on any page. The page reaches
/// no other page.
pub fn first_page() -> [u64; PAGE_WORDS]
    ensures { (page_state : ℕ → PageState) (words : ℕ → ℕ → ℕ) (page : ℕ)
        → IsTrue (is_kept (page_state page)) →
        ((i : ℕ) → i < 512 → words page i ≡ slice_index result i)
        → IsVersion page_state words page empty }
{
    let mut words = [0; PAGE_WORDS];
    words[0] = 255;
    words[2] = 1;
    words
}
