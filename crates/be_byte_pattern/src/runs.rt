//! Runs of literal bytes, separated by `*`.
ghost use Rattle.std.specs.Prelude.{◌≡◌, ◌≢◌, ◌<◌, ◌≤◌, ◌++◌, ◌∷◌, List, ℕ, true, false, map};
ghost use Rattle.std.specs.Prelude.{nat_eq, length, take, drop, IfNone, IfSome, slice_index};
ghost use Rattle.std.specs.Prelude.{string_bytes};
ghost use Rattle.std.specs.List.{ends_with};
ghost use Rattle.be_pattern.specs.Match.{Part, Only, Run, matches, some_tail};
ghost use Rattle.be_byte_pattern.specs.Runs.{after_stars, parts_of_runs};

/// The runs of a pattern without `?` and sets.
#[derive(Drop)]
pub(crate) struct Runs {
    /// The run before the first `*`. A string must begin with it.
    pub(crate) front: String,
    /// The run after each `*`.
    pub(crate) later: Vec<String>,
}

impl Runs {
    /// Whether the bytes begin with the first run, end with the last run, and contain the others
    /// between them in order.
    pub(crate) fn are_in(&self, text: &[u8]) -> bool
        ensures { result ≡ matches (parts_of_runs self.now) text.now }
    {
        match after_run(text, self.front.as_bytes()) {
            Some(rest) => follow(self.later.as_slice(), rest),
            None => false,
        }
    }
}

/// Whether the bytes begin with a run that is no longer than they are. Most comparisons fail at the
/// first byte.
#[inline(always)]
fn begins_with(bytes: &[u8], run: &[u8]) -> bool
    requires { length run.now ≤ length bytes.now }
    ensures yes { result ≡ true → take (length run.now) bytes.now ≡ run.now }
    ensures no { result ≡ false → (rest : List ℕ) → bytes.now ≡ run.now ++ rest → ⊥ }
{
    for i in 0..run.len() {
        if bytes[i] != run[i] {
            return false;
        }
    }
    true
}

/// The bytes after a run, if the bytes begin with that run.
#[inline(always)]
fn after_run<'a>(bytes: &'a [u8], run: &[u8]) -> Option<&'a [u8]>
    ensures some { IfSome result (λ rest. bytes.now ≡ run.now ++ rest.now) }
    ensures none { IfNone result ((rest : List ℕ) → bytes.now ≡ run.now ++ rest → ⊥) }
{
    if bytes.len() < run.len() || !begins_with(bytes, run) {
        return None;
    }
    Some(&bytes[run.len()..])
}

#[inline(always)]
fn ends_with(bytes: &[u8], run: &[u8]) -> bool
    ensures { result ≡ ends_with nat_eq bytes.now run.now }
{
    if bytes.len() < run.len() {
        return false;
    }
    let (_, end) = bytes.split_at(bytes.len() - run.len());
    begins_with(end, run)
}

/// The first position before `end` that holds this byte, or `end` if there is none.
#[inline(always)]
fn place_of(byte: u8, bytes: &[u8], end: usize) -> usize
    requires { end ≤ length bytes.now }
    ensures within { result ≤ end }
    ensures missing { (k : ℕ) → k < result → slice_index bytes.now k ≢ byte }
{
    for at in 0..end {
        if bytes[at] == byte {
            return at;
        }
    }
    end
}

/// The bytes after the first byte, if there is one.
#[inline(always)]
fn after_byte(bytes: &[u8]) -> &[u8]
    ensures { result.now ≡ drop 1 bytes.now }
{
    match bytes.split_first() {
        Some((_, rest)) => rest,
        None => bytes,
    }
}

/// The bytes after the first occurrence of a run. It searches for the run's first byte, and
/// compares the run only where that byte is found.
fn after_first<'a>(bytes: &'a [u8], run: &[u8]) -> Option<&'a [u8]>
    ensures some { IfSome result (λ rest. (ps : List Part) →
        some_tail (matches (map Only run.now ++ (Run ∷ ps))) bytes.now
        ≡ some_tail (matches ps) rest.now) }
    ensures none { IfNone result ((ps : List Part)
        → some_tail (matches (map Only run.now ++ ps)) bytes.now ≡ false) }
{
    let Some((first, others)) = run.split_first() else {
        return Some(bytes);
    };
    let mut rest = bytes;
    'places: while run.len() <= rest.len() {
        let end = rest.len() - others.len();
        let at = place_of(*first, rest, end);
        if at == end {
            return None;
        }
        let (_, here) = rest.split_at(at);
        if let Some(after) = after_run(here, run) {
            return Some(after);
        }
        rest = after_byte(here);
    }
    None
}

/// Whether the runs, each after a `*`, occur one after another, with the last run at the end.
fn follow(runs: &[String], bytes: &[u8]) -> bool
    ensures { result ≡ matches (after_stars (map string_bytes runs.now)) bytes.now }
{
    let mut left = runs;
    let mut rest = bytes;
    'runs: while let Some((run, after)) = left.split_first() {
        if after.is_empty() {
            return ends_with(rest, run.as_bytes());
        }
        let Some(shorter) = after_first(rest, run.as_bytes()) else {
            return false;
        };
        left = after;
        rest = shorter;
    }
    rest.is_empty()
}
