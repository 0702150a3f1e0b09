use crate::Keyword;
use plain_types::Bytes;

/// A word of a script.
#[derive(Debug, PartialEq, Drop)]
pub enum Word {
    Key(Keyword),
    /// A name that stands without backquotes.
    Name(Bytes),
    /// A name between backquotes, without them.
    Quoted(Bytes),
    /// A number as it is spelled: digits, perhaps after a minus and perhaps with a fraction.
    Number(Bytes),
    /// A string, each doubled quote in it as one.
    Text(Bytes),
    Mark(Mark),
    /// A byte that begins no word, or a string or a name that does not end. No word follows it.
    Bad,
    /// The end of the script.
    End,
}

/// A mark of punctuation, or an operator.
#[derive(Clone, Copy, Debug, PartialEq, Eq)]
pub enum Mark {
    Open,
    Close,
    Comma,
    Semicolon,
    Point,
    Star,
    Equal,
    /// `<>` or `!=`.
    NotEqual,
    Less,
    LessOrEqual,
    Greater,
    GreaterOrEqual,
    Plus,
    Minus,
}

/// A word, and the line that it begins on.
#[derive(Debug, PartialEq, Drop)]
pub struct Placed {
    pub word: Word,
    /// From 1, as far as numbers of 32 bits go.
    pub line: u32,
}
