//! A page reader for tests, which sees the pages as they were when the open write began.
use be_pages::Look;

/// A page reader that sees the state from when the open write began. It can read pages that the
/// write gave up, but not pages that it took.
#[derive(Drop)]
pub(crate) struct Before<L> {
    pub look: L,
}

impl<L: Look> Look for Before<L> {
    ghost use Rattle.std.specs.Prelude.{ℕ};
    ghost use Rattle.std.proofs.Common.{ap};
    ghost use Rattle.be_pages.specs.Pages.{after_undo};
    ghost use Rattle.be_pages.specs.declared.room.PageState.{PageState as AnyPageState};

    ghost Kept = { L.Kept × (ℕ → AnyPageState) };

    ghost kept = { λ b. (L.kept b.look, L.page_state b.look) };

    ghost is_open = { λ k. L.is_open k.0 };

    ghost page_state = { λ b q. after_undo (L.page_state b.look q) };

    ghost words = { λ b. L.words b.look };

    ghost pages_small = { λ b q some. L.pages_small b.look q (λ free. some (ap after_undo free)) };

    fn word(&mut self, page: u64, i: usize) -> u64 {
        self.look.word(page, i)
    }
}
