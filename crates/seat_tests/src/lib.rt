//! Tests of passes in two threads.
#![tactic(auto)]

#[cfg(test)]
mod meeting;
