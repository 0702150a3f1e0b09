use plain_types::{Boxed, Bytes as Octets, Items};

/// A value of a schema.
#[derive(Debug, Drop)]
#[cycle(datum)]
pub enum Datum {
    Null,
    Boolean(bool),
    Int(i32),
    Long(i64),
    Bytes(Octets),
    /// UTF-8.
    Text(Octets),
    /// The fields' values, in the schema's order.
    Record(Items<Datum>),
    /// The place of the symbol among the schema's symbols.
    Enum(u32),
    Array(Items<Datum>),
    /// The pairs in the order of the bytes; a key may stand more than once.
    Map(Items<MapPair>),
    Union { branch: u32, value: Boxed<Datum> },
    Fixed(Octets),
}

#[derive(Debug, Drop)]
#[cycle(datum)]
pub struct MapPair {
    pub key: Octets,
    pub value: Datum,
}
