//! What the batches of a journal make of the store that its snapshot says.
#![tactic(auto)]

mod entries;
mod files;
mod fold;
mod judging;
mod laws;
mod stores;
mod uses;

pub use files::FoldedFile;
pub use fold::Fold;
pub use laws::{
    image_without_batches, lawful_fold, one_fold, one_meaning, one_more_batch, one_store,
};
pub use stores::FoldedStore;
