use plain_types::{Bytes, List};

/// An item as it is spelled.
#[derive(Debug, Drop)]
pub(crate) enum Item {
    Session(Bytes),
    Insert(List<List<Literal>>),
    Delete(Option<Equality>),
}

/// A literal, and the line that it begins on.
#[derive(Debug, Drop)]
pub(crate) struct Literal {
    pub(crate) line: u32,
    pub(crate) spelling: Spelling,
}

#[derive(Debug, Drop)]
pub(crate) enum Spelling {
    Null,
    Bool(bool),
    Number(Bytes),
    Text(Bytes),
}

/// A column and the literal that it is to equal.
#[derive(Debug, Drop)]
pub(crate) struct Equality {
    pub(crate) column: ColumnName,
    pub(crate) literal: Literal,
}

/// A column's name, and perhaps the one of a table before it.
#[derive(Debug, Drop)]
pub(crate) struct ColumnName {
    pub(crate) table: Option<PlacedName>,
    pub(crate) column: PlacedName,
}

/// A name, and the line that it stands on.
#[derive(Debug, Drop)]
pub(crate) struct PlacedName {
    pub(crate) line: u32,
    pub(crate) text: Bytes,
}
