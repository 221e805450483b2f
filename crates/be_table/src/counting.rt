//! How the versions and an open write share the pool when no page is left.
ghost use Rattle.std.specs.Prelude.{ℕ, ◌+◌, ◌*◌, ◌≤◌, List, length};
ghost use Rattle.std.specs.FinMap as map;
ghost use Rattle.be_table.specs.Imports.{has, in_hand, items, State};
ghost use Rattle.be_table.specs.Counts.{count_below, reached};
ghost use Rattle.be_table.specs.Reading.{page_state_among};
ghost use Rattle.be_table.specs.Rule.{largest_pool, reach_at};
ghost use Rattle.be_table.specs.Versions.{EncodesVolume};
ghost use Rattle.be_table.specs.Works.{HoldsStill, IsSpent};
ghost use Rattle.be_table.specs.declared.pass.Knowledge.{Knowledge};

use be_paged::version_pages;

/// If a write was refused because no page was left, the whole pool consists of two parts: the pages
/// of the versions from `least` on, and the pages that the write held.
pub fn full_counts()
    ensures all { (a : Knowledge) (least : ℕ) → IsSpent a least
        → a.limits.pages ≤ reached a.limits a.seen least a.limits.pages
        + count_below (has a.held) a.limits.pages }
    ensures now { (a : Knowledge) → IsSpent a (length a.seen)
        → a.limits.pages
        ≤ count_below (has (reach_at a.limits a.seen (length a.seen))) a.limits.pages
        + count_below (has a.held) a.limits.pages }
{}

/// A version that encodes a volume has at most one page per five items, one per index, and one
/// more.
pub fn encoded_counts()
    ensures { (pages : List ℕ) (words : ℕ → ℕ → ℕ) (page n : ℕ) (volume : State)
        → EncodesVolume pages words page volume
        → 5 * count_below (has pages) n ≤ items volume + 4 * map.len volume.indices + 9 }
{
    version_pages();
}

/// If a write was refused because no page was left, the pages that it held at the scan are among
/// those that it still holds.
pub fn held_counts()
    ensures { (a : Knowledge) (n : ℕ) → HoldsStill a → n ≤ largest_pool
        → count_below (has a.held) n ≤ in_hand n (page_state_among a.places) }
{}
