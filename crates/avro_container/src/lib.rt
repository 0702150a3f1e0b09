//! Avro's object container files: reads the header, and the datums block by block, and writes both.
//!
//! What is read is exactly what the grammar of files has. A file is a header and then blocks, and each is one
//! step of a definition over the bytes that are left, so a reader of one block at a time takes the same steps.
#![tactic(auto)]

mod block;
mod container;
mod fault;
mod header;
mod pairs;
mod writer;
mod writing;

pub use block::next_block;
pub use container::{Container, one_container, read_container};
pub use fault::ContainerFault;
pub use header::{Header, read_header};
pub use pairs::MetaPair;
pub use plain_types::{Bytes as Blob, List, Text as Name};
pub use writer::{what_is_written_is_read, write_container};
