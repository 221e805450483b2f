//! The text of queries, tested through be_query_text's public calls.
#![tactic(auto)]

#[cfg(test)]
mod tests;
