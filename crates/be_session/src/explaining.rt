//! Formats the index cover from which a query would be answered.
ghost use Rattle.std.specs.Prelude.{◌≡◌, Bool, List, Ok, true, ℕ, string_bytes};
ghost use Rattle.be_session.specs.Imports.{are_places, chosen, Answers};
ghost use Rattle.be_session.specs.Explained.{explanation_where};

use be_store::{Cover, Query, Refusal, explain};
use std::alloc::Global;

/// Returns the text of the cover that was chosen for a query, with its score.
pub(crate) fn cover_text(alloc: Global, query: &Query, cover: &Cover) -> Result<String, Refusal>
    requires { are_places query.now cover.now.picks ≡ true }
    ensures { (indexed : List ℕ → Bool) → chosen indexed query.now ≡ Ok cover.now
        → Answers string_bytes result (explanation_where indexed query.now) }
{
    explain(alloc, query, cover)
}
