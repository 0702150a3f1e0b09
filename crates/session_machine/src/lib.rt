//! The machine of a run: what each step of a session says and answers, as the versions of the table hold it, and the words
//! of events and answers.
//!
//! It has no name, no file of its own and no write; what a program does with a store is compared with it. A step that the
//! files tell is the same over all later files.
#![tactic(auto)]

mod answer;
mod event;
mod laws;
mod place;

pub use answer::Answer;
pub use event::{Event, EventKind, Stepped};
pub use laws::a_turn_stands_when_files_are_added;
pub use place::{Phase, Place};
