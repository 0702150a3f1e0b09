//! The words of a script.

use script_words::{Keyword, Mark, Placed, Word, words_of};
use std::alloc::AllocError;

#[derive(Clone, Copy, Debug)]
enum Wanted {
    Key(Keyword),
    Name(&'static str),
    Quoted(&'static str),
    Number(&'static str),
    Text(&'static str),
    Mark(Mark),
    Bad,
    End,
}

use Keyword::{Delete, From, Null, X};
use Wanted::{Bad, End, Key, Name, Number, Quoted, Text};

/// Words and the lines that they begin on.
type Line = (u32, Wanted);

const CASES: [(&str, &[Line]); 22] = [
    ("", &[(1, End)]),
    (" \t\r\n-- a comment", &[(1, End)]),
    (
        "delete From\n`t``` a_1",
        &[
            (1, Key(Delete)),
            (1, Key(From)),
            (2, Quoted("t")),
            (2, Bad),
            (2, End),
        ],
    ),
    (
        "xX x'61'",
        &[(1, Name("xX")), (1, Key(X)), (1, Text("61")), (1, End)],
    ),
    (
        "'it''s'\n\n''",
        &[(1, Text("it's")), (3, Text("")), (3, End)],
    ),
    (
        "'a\nb' `c\nd`\n e",
        &[
            (1, Text("a\nb")),
            (2, Quoted("c\nd")),
            (4, Name("e")),
            (4, End),
        ],
    ),
    ("'Ünö' Ü", &[(1, Text("Ünö")), (1, Bad), (1, End)]),
    ("a\n'b\nc", &[(1, Name("a")), (2, Bad), (2, End)]),
    ("a\n`b\nc", &[(1, Name("a")), (2, Bad), (2, End)]),
    ("a -- 'b\nc", &[(1, Name("a")), (2, Name("c")), (2, End)]),
    ("a /* b", &[(1, Name("a")), (1, Bad), (1, End)]),
    (
        "-12.50 1. 2a",
        &[
            (1, Number("-12.50")),
            (1, Number("1")),
            (1, Wanted::Mark(Mark::Point)),
            (1, Number("2")),
            (1, Name("a")),
            (1, End),
        ],
    ),
    (
        "n-1",
        &[
            (1, Name("n")),
            (1, Wanted::Mark(Mark::Minus)),
            (1, Number("1")),
            (1, End),
        ],
    ),
    (
        "null -1",
        &[
            (1, Key(Null)),
            (1, Wanted::Mark(Mark::Minus)),
            (1, Number("1")),
            (1, End),
        ],
    ),
    (
        "- -1",
        &[(1, Wanted::Mark(Mark::Minus)), (1, Number("-1")), (1, End)],
    ),
    (
        ")-1",
        &[
            (1, Wanted::Mark(Mark::Close)),
            (1, Wanted::Mark(Mark::Minus)),
            (1, Number("1")),
            (1, End),
        ],
    ),
    (
        "(-1",
        &[(1, Wanted::Mark(Mark::Open)), (1, Number("-1")), (1, End)],
    ),
    (
        "<><=<",
        &[
            (1, Wanted::Mark(Mark::NotEqual)),
            (1, Wanted::Mark(Mark::LessOrEqual)),
            (1, Wanted::Mark(Mark::Less)),
            (1, End),
        ],
    ),
    (
        "!=>=>",
        &[
            (1, Wanted::Mark(Mark::NotEqual)),
            (1, Wanted::Mark(Mark::GreaterOrEqual)),
            (1, Wanted::Mark(Mark::Greater)),
            (1, End),
        ],
    ),
    ("! =", &[(1, Bad), (1, End)]),
    (
        "=+*,;",
        &[
            (1, Wanted::Mark(Mark::Equal)),
            (1, Wanted::Mark(Mark::Plus)),
            (1, Wanted::Mark(Mark::Star)),
            (1, Wanted::Mark(Mark::Comma)),
            (1, Wanted::Mark(Mark::Semicolon)),
            (1, End),
        ],
    ),
    ("``", &[(1, Bad), (1, End)]),
];

fn is_word(word: &Word, wanted: Wanted) -> bool {
    match (word, wanted) {
        (Word::Key(key), Key(wanted)) => *key == wanted,
        (Word::Name(name), Name(wanted)) => name.as_slice() == wanted.as_bytes(),
        (Word::Quoted(name), Quoted(wanted)) => name.as_slice() == wanted.as_bytes(),
        (Word::Number(number), Number(wanted)) => number.as_slice() == wanted.as_bytes(),
        (Word::Text(text), Text(wanted)) => text.as_slice() == wanted.as_bytes(),
        (Word::Mark(mark), Wanted::Mark(wanted)) => *mark == wanted,
        (Word::Bad, Bad) => true,
        (Word::End, End) => true,
        _ => false,
    }
}

fn are_words(words: &[Placed], wanted: &[Line]) -> bool {
    words.len() == wanted.len()
        && words.iter().zip(wanted.iter()).all(|(placed, wanted)| placed.line == wanted.0
            && is_word(&placed.word, wanted.1))
}

#[test]
fn a_text_is_cut_into_words_with_their_lines(rt: HostRuntime) -> Result<(), AllocError> {
    for (text, wanted) in CASES.iter() {
        let words = words_of(rt.alloc(), *text)?;
        assert!(rt; are_words(words.as_slice(), *wanted), "{text}: {words:?}");
    }
    Ok(())
}
