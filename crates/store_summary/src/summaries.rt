//! What is told of a store.
use hsm_types::{ListOf, Table, Word};

/// Names of files. Contracts see each as its bytes.
pub type Words = ListOf<Word>;

/// What an image of a store stands for.
#[derive(Drop)]
pub struct Summary {
    /// How many entries of history came before its last commit.
    pub number: u64,

    pub table: Table,

    /// The names of the table's files, in the same order.
    pub names: Words,
}

/// How many objects and entries are of each class.
#[derive(Clone, Copy)]
pub struct ClassCounts {
    /// Objects that a stub entry names.
    pub live: u64,

    /// Objects that none names.
    pub dead: u64,

    /// Stub entries whose objects have their fingerprints.
    pub held: u64,

    /// Stub entries whose objects aren't there.
    pub missing: u64,

    /// Stub entries whose objects have other fingerprints.
    pub altered: u64,
}
