//! A compiled pattern.
ghost use Rattle.std.specs.Prelude.{◌≡◌, IsUtf8, IfOk, IfErr};
ghost use Rattle.std.specs.Str.{chars};
ghost use Rattle.be_value.specs.declared.refusals.Refusal.TheVariants.{OutOfMemory};
ghost use Rattle.be_pattern.specs.Match.{matches};

use crate::reading::read_runs;
use crate::runs::Runs;
use be_pattern::Pattern;
use be_value::Refusal;
use std::alloc::Global;
use std::marker::Model;
use std::str;

/// A compiled pattern, ready to be matched against the bytes of many strings. Contracts see the
/// pattern's parts.
#[derive(Drop)]
pub struct BytePattern<'p> {
    pattern: &'p Pattern,
    /// The runs of a pattern without `?` and sets, or `None` for any other pattern.
    runs: Option<Runs>,
}

impl<'p> Model for BytePattern<'p> {
    ghost use Rattle.std.specs.Prelude.{◌≡◌, ◌++◌, List, map, true, IfSome};
    ghost use Rattle.be_pattern.specs.Match.{Part, Only};
    ghost use Rattle.be_byte_pattern.specs.Runs.{IsOfRuns};

    ghost Value = { List Part };

    ghost view = { λ p. p.pattern.now };

    ghost invariant = { λ p. IfSome p.runs (λ runs. IsOfRuns p.pattern.now runs) };
}

impl<'p> BytePattern<'p> {
    /// Compiles a pattern. It allocates memory a few times for each run of literal characters.
    pub fn new(alloc: Global, pattern: &'p Pattern) -> Result<BytePattern<'p>, Refusal>
        ensures ok { IfOk result (λ compiled. compiled ≡ pattern.now) }
        ensures err { IfErr result (λ e. e ≡ OutOfMemory) }
    {
        let text = pattern.canonical(alloc)?;
        let runs = read_runs(alloc, text.as_str())?;
        Ok(BytePattern { pattern, runs })
    }

    /// Whether the pattern matches the whole string, given as bytes, as `Pattern::matches` does. It
    /// allocates nothing. If the bytes aren't valid UTF-8, the result is unspecified.
    #[inline(always)]
    pub fn matches(&self, text: &[u8]) -> bool
        ensures { IsUtf8 text.now → result ≡ matches self.now (chars text.now) }
    {
        match &self.runs {
            Some(runs) => runs.are_in(text),
            None => matches_chars(self.pattern, text),
        }
    }
}

/// Whether a pattern matches a string, character by character. This is a separate function so that
/// callers that compare bytes need no stack space for it.
#[inline(never)]
fn matches_chars(pattern: &Pattern, text: &[u8]) -> bool
    ensures { IsUtf8 text.now → result ≡ matches pattern.now (chars text.now) }
{
    match str::from_utf8(text) {
        Ok(text) => pattern.matches(text),
        Err(_) => false,
    }
}
