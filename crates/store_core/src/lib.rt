//! What the engine asks of the world: a store of named files, of which one call makes a name that only one can make, the
//! inputs of a command, a sink for the report, and a clock. Each comes with a form in memory that keeps every promise, also
//! where calls fail.
//!
//! Contracts see a store as a finite map from names to bytes, where it tells its files, and three counts. Everything
//! above is proved over these promises alone.
#![tactic(auto)]

mod clock;
mod inputs;
mod memory_inputs;
mod memory_sink;
mod memory_store;
mod names;
mod sink;
mod store;

pub use clock::{Clock, FixedClock};
pub use inputs::{InputAnswer, Inputs, IoFault};
pub use memory_inputs::MemoryInputs;
pub use memory_sink::MemorySink;
pub use memory_store::{CallKind, FailAt, File, Leave, MemoryStore};
pub use plain_types::{Bytes as Blob, List, Text as Name};
pub use sink::{Sink, SinkFault, write_all};
pub use store::{ReadAnswer, Store, StoreFault, SwapAnswer};
