//! Values of each kind from and to the bytes that files hold them in, and bounds between which the values of a column lie.
//!
//! A value is read only where it is one of its kind, and what is written is read again. Numbers stand in two's complement, the
//! highest byte first as decimals do, or the lowest first as ints and longs do.
#![tactic(auto)]

mod big_endian;
mod bound;
mod bound_laws;
mod byte_laws;
mod kinds;
mod little_endian;
mod stats;
mod values;
mod writing;

pub use big_endian::{byte_count, put_signed, put_signed_in, signed_of};
pub use bound::read_bound;
pub use bound_laws::a_written_bound_is_read_again;
pub use byte_laws::{a_written_number_is_read_again, written_bytes_are_the_fewest};
pub use kinds::is_value;
pub use little_endian::{int_of, long_of, put_int, put_long};
pub use row_values::{Kind, List, Value};
pub use stats::{ColumnStats, Stats, Summary};
pub use values::{
    bytes_value, date_value, decimal_value, int_value, long_value, text_value, timestamp_value,
};
pub use writing::put_bound;
