//! The store over a real folder, and inputs from real files. They tell nothing of their files, so what is proved of them
//! is safety, the causes of their faults and their counts; what a folder holds is trusted.
//!
//! A version comes to be whole, by one link, after its bytes and the names of all files that it speaks of are on the disk;
//! it is never taken back.
#![tactic(auto)]

mod file_inputs;
mod folder;
mod folder_store;
mod folders;

pub use file_inputs::FileInputs;
pub use folder_store::FolderStore;
