//! The names of a table's files in a store: its versions and which of them is the current one, the names of the files that
//! a run puts, a put under the next of them, and the paths by which the table knows them.
//!
//! No version that is there is above the current one. A file's name bears the run, the session and a number that is drawn
//! once, and a run has the least number that no file of the table bears, so no file has such a name yet.
#![tactic(auto)]

mod marks;
mod name_laws;
mod names;
mod path_laws;
mod paths;
mod puts;
mod run;
mod run_laws;
mod version;
mod version_laws;

pub use name_laws::{a_file_leaves_the_later_names_free, another_session_leaves_the_names_free};
pub use names::Names;
pub use path_laws::a_written_path_is_its_name;
pub use paths::{folder_of, name_of};
pub use puts::{Folder, put_next};
pub use run::fresh_run;
pub use run_laws::a_fresh_run_has_free_names;
pub use version::{compressed_version, current_version, version_name};
pub use version_laws::{
    a_version_is_not_above_the_current_one, the_names_of_versions_say_which_is_current,
    the_next_version_is_current_once_it_is_there,
};
