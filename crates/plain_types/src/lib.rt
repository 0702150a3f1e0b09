//! The types and words that every other crate speaks in: lists, texts and bytes that contracts see
//! as lists, the causes of a failed call, bags of rows, and the one list in byte order of a bag.
//!
//! A value of `List`, `Text` or `Bytes` is made from a `Vec` or a `String` and gives it back without
//! taking memory, so a layer pays for such a type only where it grows one.
#![tactic(auto)]

mod bytes;
pub mod digits;
mod laws;
mod list;
mod order;
mod path;
mod text;

pub use bytes::Bytes;
pub use laws::{
    joining_keeps_a_bag, mapping_keeps_a_bag, one_list_in_byte_order, order_does_not_matter,
    permutation_is_same_bag, same_bag_is_equal_counts,
};
pub use list::List;
pub use order::sort_in_byte_order;
pub use path::is_path;
pub use sqlite_items::{Boxed, Items};
pub use text::Text;
