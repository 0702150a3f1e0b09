//! What the files of a table hold, as a store has them: metadata, manifest lists, manifests, data files, the branches that
//! they make, and whether a version has the form that is read and written so far.
//!
//! A reading answers what its definition says of the files, or the first fault with its path. What is read stands when files
//! are added, so what was loaded of a version stays true.
#![tactic(auto)]

mod branches;
mod files;
mod form;
mod gathered;
mod laws;
mod live_set;
mod load_fault;
mod load_laws;
mod loading;
mod state;

pub use branches::head_of;
pub use files::{read_data_file_at, read_file, read_list_at, read_manifest_at};
pub use form::{are_data_entries, are_data_manifests, columns_in_form, has_form, writing_in_form};
pub use laws::branches_stand_when_files_are_added;
pub use live_set::{BranchState, LiveSet, data_files_of};
pub use load_fault::LoadFault;
pub use load_laws::a_loaded_head_is_parted;
pub use loading::load;
pub use state::{LiveCount, State};
