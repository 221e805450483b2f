//! Tests of a volume in pages, by public calls of be_paged only. The plain volume and the volume in
//! pages have to give the same answers.
#![tactic(auto)]

#[cfg(test)]
mod tests;
