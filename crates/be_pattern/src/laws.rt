//! Laws that follow from the definitions of patterns.
ghost use Rattle.std.specs.Prelude.{ℕ, Bool, ◌≡◌, List, Ok, true};
ghost use Rattle.std.specs.List.{list_all};
ghost use Rattle.be_pattern.specs.Canonical.{are_formed, canonical, has_only, notation};
ghost use Rattle.be_pattern.specs.Match.{Part};
ghost use Rattle.be_pattern.specs.Parse.{pattern};

/// A law: the canonical text of a pattern encodes the same pattern.
pub fn canonical()
    ensures back { (cs : List ℕ) (ps : List Part) → pattern cs ≡ Ok ps → pattern (canonical ps)
        ≡ Ok ps }
    // The tokens that a text encodes have no empty set and no descending range.
    ensures formed { (cs : List ℕ) (ps : List Part) → pattern cs ≡ Ok ps → are_formed ps ≡ true }
    // Any such tokens are read back from their canonical text.
    ensures read { (ps : List Part) → are_formed ps ≡ true → pattern (canonical ps) ≡ Ok ps }
{}

/// A law about the characters that a pattern and its canonical text contain, for any test of
/// characters.
pub fn characters()
    // The tokens that a text encodes contain only characters of that text.
    ensures named { (test : ℕ → Bool) (cs : List ℕ) (ps : List Part) → pattern cs ≡ Ok ps
        → list_all test cs ≡ true → list_all (has_only test) ps ≡ true }
    // The canonical text contains only the tokens' characters and those of the notation.
    ensures printed { (test : ℕ → Bool) (ps : List Part) → list_all test notation ≡ true
        → list_all (has_only test) ps ≡ true
        → list_all test (canonical ps) ≡ true }
{}
