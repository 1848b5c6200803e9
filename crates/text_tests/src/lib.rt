//! Tests of scripts, of drills, of summaries, and of the words of the command line.
#![tactic(auto)]

#[cfg(test)]
mod drills;
#[cfg(test)]
mod scripts;
#[cfg(test)]
mod summaries;
#[cfg(test)]
mod words;
