//! Reads a script: its sessions and the statements that each of them runs, or the first fault and its line.
//!
//! A script is read item by item. In an item, words that are none come before what is out of form, then unknown names, values
//! of another kind, and limits. Each reading function has a definition of its own in `specs/`, of the same name and shape.
#![tactic(auto)]

mod form;
mod front;
mod items;
mod laws;
mod literal;
mod raw;
mod read;
mod script;
mod values;

pub use laws::{
    scripts_that_were_read_are_short, sessions_that_were_read_have_plain_names,
    statements_that_were_read_are_of_the_columns,
};
pub use read::read_script;
pub use script::{Script, ScriptFault, SessionItem};
