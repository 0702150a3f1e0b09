use plain_types::{Boxed, Bytes as Octets, Items};

/// An Avro schema. A named type's name is its full name, and a reference to a named type stands as the
/// type that it names.
#[derive(Debug, Drop)]
#[cycle(schema)]
pub enum Schema {
    Null,
    Boolean,
    Int(Logical),
    Long(Logical),
    Bytes(Logical),
    Text,
    Record {
        name: Octets,
        fields: Items<Field>,
    },
    Enum {
        name: Octets,
        symbols: Items<Octets>,
    },
    Array {
        items: Boxed<Schema>,
        element: Option<i32>,
        map: bool,
    },
    Map {
        values: Boxed<Schema>,
        key_id: Option<i32>,
        value_id: Option<i32>,
    },
    Union(Items<Schema>),
    Fixed {
        name: Octets,
        size: u64,
        logical: Logical,
    },
}

#[derive(Debug, Drop)]
#[cycle(schema)]
pub struct Field {
    pub name: Octets,
    pub id: Option<i32>,
    pub schema: Schema,
}

/// What a `logicalType` says of the values that the type under it carries.
#[derive(Debug, Drop)]
pub enum Logical {
    Plain,
    Date,
    TimestampMicros { utc: bool },
    Decimal { precision: u8, scale: u8 },
    /// Any other, by its name.
    Other(Octets),
}
