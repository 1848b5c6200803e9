//! Tests of the whole, through the top call of the program. They stand apart from the crates that they try, since a crate
//! with tests is proved twice.
#![tactic(auto)]

#[cfg(test)]
mod crashes;
#[cfg(test)]
mod disk_faults;
#[cfg(test)]
mod drives;
#[cfg(test)]
mod fetches;
#[cfg(test)]
mod files;
#[cfg(test)]
mod media;
#[cfg(test)]
mod running;
#[cfg(test)]
mod streams;
