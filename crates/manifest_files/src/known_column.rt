use row_values::Kind;

/// A column of which statistics are kept.
#[derive(Clone, Copy, Debug, PartialEq, Eq)]
pub struct KnownColumn {
    pub id: i32,
    pub kind: Kind,
}
