/// What a column holds: the primitive types of the Iceberg specification ("Primitive Types") that
/// this project reads.
#[derive(Clone, Copy, Debug, PartialEq, Eq)]
pub enum Kind {
    Bool,
    Int,
    Long,
    Date,
    /// `timestamp`, or `timestamptz` where it is in UTC.
    Timestamp { utc: bool },
    /// At most `precision` decimal digits, `scale` of them behind the point.
    Decimal { precision: u8, scale: u8 },
    /// `string`.
    Text,
    /// `binary`.
    Bytes,
}
