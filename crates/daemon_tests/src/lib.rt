//! Tests of buffers of messages, of how a daemon comes to a session, and of the recall daemon.
#![tactic(auto)]

#[cfg(test)]
mod answers;
#[cfg(test)]
mod entering;
#[cfg(test)]
mod messages;
#[cfg(test)]
mod recalling;
