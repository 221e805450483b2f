//! Explaining which comparisons a cover picks.
ghost use Rattle.std.specs.Prelude.{◌≡◌, ◌≤◌, true, IfOk, IfErr};
ghost use Rattle.be_plan.specs.Imports.{comparisons, formula, string_bytes, OutOfMemory};
ghost use Rattle.be_plan.specs.Explain.{are_places, explanation, picked_text, text_at};

use crate::Cover;
use crate::running::comparison_at;
use be_query::{Query, Tree, print_comparison};
use be_value::Refusal;
use std::alloc::Global;

/// Returns the canonical text of the comparison at a position.
fn print_at(alloc: Global, tree: &Tree, place: usize) -> Result<String, Refusal>
    requires { comparisons (formula tree.now) ≤ 256 }
    ensures text { IfOk result (λ text. string_bytes text ≡ text_at (formula tree.now) place) }
    ensures memory { IfErr result (λ e. e ≡ OutOfMemory) }
{
    match comparison_at(tree, place) {
        Some(comparison) => print_comparison(alloc, comparison),
        None => Ok(String::new(alloc)),
    }
}

/// Returns the canonical texts of the picked comparisons, joined by ` || `.
fn print_picks(alloc: Global, tree: &Tree, picks: &[usize]) -> Result<String, Refusal>
    requires { comparisons (formula tree.now) ≤ 256 }
    ensures text { IfOk result (λ text. string_bytes text
        ≡ picked_text (formula tree.now) picks.now) }
    ensures memory { IfErr result (λ e. e ≡ OutOfMemory) }
{
    let Some((first, others)) = picks.split_first() else {
        return Ok(String::new(alloc));
    };
    let mut text = print_at(alloc, tree, *first)?;
    for pick in others {
        text.push_str(" || ")?;
        text.push_str(print_at(alloc, tree, *pick)?.as_str())?;
    }
    Ok(text)
}

/// Returns the picked comparisons in canonical form, joined by ` || ` in the order of the picks,
/// followed by the score. For example: `"a"=="1" score 1`.
pub fn explain(alloc: Global, query: &Query, cover: &Cover) -> Result<String, Refusal>
    requires { are_places (query.now) cover.now.picks ≡ true }
    ensures text { IfOk result (λ text. string_bytes text ≡ explanation (query.now) cover.now) }
    ensures memory { IfErr result (λ e. e ≡ OutOfMemory) }
{
    let mut text = print_picks(alloc, query.tree(), cover.picks.as_slice())?;
    text.push_str(" score ")?;
    text.push_str(cover.score.to_string(alloc)?.as_str())?;
    Ok(text)
}
