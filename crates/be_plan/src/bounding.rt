//! Bounds on the keys that a query allows in one index.
//!
//! A page in index order comes from a walk over that index, no matter which indices cover the
//! query. Comparisons on the index's own name bound the walk, and each node is tested only against
//! the rest of the query.
ghost use Rattle.std.specs.Prelude.{◌≡◌, is_some, List, ℕ};
ghost use Rattle.be_plan.specs.Imports.{comparisons, formula, has_index, option_copied, option_map};
ghost use Rattle.be_plan.specs.Imports.{State};
ghost use Rattle.be_plan.specs.Bounding.{Bounding, HasAtMost};
ghost use Rattle.be_plan.specs.Narrow.{Within};
ghost use Rattle.be_plan.specs.Sources.{StillAnswers};

use crate::fewest::keys_allowed;
use crate::narrowing::narrow_beside;
use crate::ranges::Range;
use crate::{KeyRange, Source};
use be_query::Tree;
use be_value::{Kind, Name};
use std::marker::Model;

/// The bounds of a range of keys in an index. Contracts view them as a pair with the low bound
/// first.
#[derive(Drop)]
pub struct KeyBounds {
    range: Range,
}

impl Model for KeyBounds {
    ghost use Rattle.std.specs.Prelude.{ℕ, List};
    ghost use Rattle.be_plan.specs.Imports.{Option};
    ghost use Rattle.be_plan.specs.Narrow.{high_of};

    ghost Value = { List ℕ × Option (List ℕ) };

    ghost view = { λ b. (b.range.low.items, high_of b.range) };
}

impl KeyBounds {
    /// Returns bounds that allow every key.
    pub fn new() -> KeyBounds
        ensures { (k : List ℕ) → Within result.0 result.1 k }
    {
        KeyBounds {
            range: Range::whole(),
        }
    }

    /// Sets the bounds to the keys that a part of a query allows in the index of `name`, which has
    /// this kind. Returns the condition that remains to be tested on their nodes, or `None` if the
    /// bounds decide the part.
    pub fn narrow<'t>(&mut self, tree: &'t Tree, name: &Name, kind: Kind) -> Option<&'t Tree>
        ensures bounds { Bounding (formula tree.now) name.now kind self.new.0 self.new.1
            (option_map formula (option_copied result)) }
        ensures few { HasAtMost (comparisons (formula tree.now))
            (option_map formula (option_copied result)) }
    {
        self.range.open();
        narrow_beside(&mut self.range, tree, name, kind)
    }

    /// Returns about how many keys a part of a query allows in the index of a name, or `None` if
    /// there is no index. Sets the bounds to these keys.
    pub fn allowed<S: Source>(&mut self, source: &mut S, tree: &Tree, name: &Name) -> Option<u64>
        requires { (volume : State) × S.answers_for source.old volume }
        ensures indexed { (volume : State) → S.answers_for source.old volume
            → is_some result ≡ has_index volume name.now }
        ensures stays { S.kept source.new ≡ S.kept source.old }
        ensures answers { StillAnswers S.answers_for source.old source.new }
        ensures still { (volume : State) × S.answers_for source.new volume }
    {
        keys_allowed(source, &mut self.range, tree, name)
    }

    /// Returns the keys within the bounds, in the index of `name`.
    pub fn keys<'a>(&'a self, name: &'a Name) -> KeyRange<'a>
        ensures name { result.name.now ≡ name.now }
        ensures low { result.low.now ≡ self.now.0 }
        ensures high { option_copied result.high ≡ self.now.1 }
    {
        self.range.keys(name)
    }
}
