/// What a manifest tells of columns, each in a map of its own.
#[derive(Clone, Copy, Debug, PartialEq, Eq)]
pub enum Fact {
    Values,
    Nulls,
    Lower,
    Upper,
}
