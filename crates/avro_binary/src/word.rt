ghost use Rattle.std.specs.Prelude.{◌≡◌};
ghost use Rattle.std.specs.Str.{bytes_eq};
ghost use Rattle.avro_binary.specs.Word.{complex_word, word_of};

/// What a type name stands for.
#[derive(Clone, Copy, Debug, PartialEq, Eq)]
pub enum Word {
    Null,
    Boolean,
    Int,
    Long,
    Bytes,
    Text,
    Record,
    Enum,
    Array,
    Map,
    Fixed,
    /// The name of a named type, or of nothing.
    Name,
}

pub fn is(name: &[u8], word: &[u8]) -> bool
    ensures { result ≡ bytes_eq name.now word.now }
{
    name == word
}

/// The word of a type name that isn't primitive.
fn complex_word(name: &[u8]) -> Word
    ensures { result ≡ complex_word name.now }
{
    if is(name, b"record") {
        Word::Record
    } else if is(name, b"enum") {
        Word::Enum
    } else if is(name, b"array") {
        Word::Array
    } else if is(name, b"map") {
        Word::Map
    } else if is(name, b"fixed") {
        Word::Fixed
    } else {
        Word::Name
    }
}

pub fn word_of(name: &[u8]) -> Word
    ensures { result ≡ word_of name.now }
{
    if is(name, b"null") {
        Word::Null
    } else if is(name, b"boolean") {
        Word::Boolean
    } else if is(name, b"int") {
        Word::Int
    } else if is(name, b"long") {
        Word::Long
    } else if is(name, b"bytes") {
        Word::Bytes
    } else if is(name, b"string") {
        Word::Text
    } else {
        complex_word(name)
    }
}
