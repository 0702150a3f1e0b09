// A script that is read byte by byte.
ghost use Rattle.std.specs.Prelude.{◌≡◌, OnOk, IfOk};
ghost use Rattle.script_words.specs.Lexer.{emptied, ended, fresh, is_operand, kept, next_line, put, started, turned};

use crate::{Keyword, Mark, Placed, Word};
use plain_types::{Bytes, List};
use std::alloc::{AllocError, Global};
use std::mem;

/// Where between and within words the reading is.
#[derive(Clone, Copy, Debug, PartialEq, Eq)]
pub(crate) enum State {
    Between,
    Comment,
    /// A name without backquotes, or a keyword.
    Name,
    Backquoted,
    Text,
    /// After a quote in a string, which ends it unless one more follows.
    Quote,
    Digits,
    /// After the point behind digits, which begins a fraction only where a digit follows.
    Point,
    Fraction,
    Dash,
    Less,
    Greater,
    Exclamation,
    /// After a byte that begins no word.
    Stopped,
}

/// What was read so far.
#[derive(Drop)]
pub(crate) struct Lexer {
    pub(crate) state: State,
    /// The line of the byte that is read next.
    pub(crate) line: u32,
    /// The line that the word in hand begins on.
    pub(crate) begun: u32,
    /// The line that the last word begins on, and 1 where there is none.
    pub(crate) last: u32,
    /// Whether the last word may stand on the left of an operator.
    pub(crate) operand: bool,
    /// The text of the word in hand.
    pub(crate) held: List<u8>,
    pub(crate) words: List<Placed>,
}

/// Whether the word is a name, a literal or a closing parenthesis.
pub(crate) fn is_operand(word: &Word) -> bool
    ensures { result ≡ is_operand word.now }
{
    match word {
        Word::Name(_) | Word::Quoted(_) | Word::Number(_) | Word::Text(_) => true,
        Word::Mark(mark) => matches!(mark, Mark::Close),
        Word::Key(key) => matches!(key, Keyword::Null | Keyword::True | Keyword::False),
        Word::Bad | Word::End => false,
    }
}

impl Lexer {
    pub(crate) fn new(alloc: Global) -> Lexer
        ensures { result ≡ fresh }
    {
        Lexer {
            state: State::Between,
            line: 1,
            begun: 1,
            last: 1,
            operand: false,
            held: List::new(alloc),
            words: List::new(alloc),
        }
    }

    /// A word begins here.
    pub(crate) fn start(&mut self, state: State)
        ensures { self.new ≡ started state self.old }
    {
        self.begun = self.line;
        self.state = state;
    }

    pub(crate) fn turn(&mut self, state: State)
        ensures { self.new ≡ turned state self.old }
    {
        self.state = state;
    }

    pub(crate) fn keep(&mut self, byte: u8) -> Result<(), AllocError>
        ensures { OnOk result (self.new ≡ kept byte self.old) }
    {
        self.held.push(byte)
    }

    /// The word in hand is this one.
    pub(crate) fn put(&mut self, word: Word) -> Result<(), AllocError>
        ensures { OnOk result (self.new ≡ put word self.old) }
    {
        self.state = State::Between;
        self.last = self.begun;
        self.operand = is_operand(&word);
        let line = self.begun;
        self.words.push(Placed { word, line })
    }

    /// The text of the word in hand.
    pub(crate) fn take(&mut self) -> Bytes
        ensures text { result ≡ self.old.held }
        ensures rest { self.new ≡ emptied self.old }
    {
        let alloc = self.held.allocator();
        let held = mem::replace(&mut self.held, List::new(alloc));
        Bytes::from_vec(held.into_vec())
    }

    pub(crate) fn end_line(&mut self)
        ensures { self.new ≡ next_line self.old }
    {
        self.line = self.line.saturating_add(1);
    }

    /// The words, with the end after them.
    pub(crate) fn into_words(self) -> Result<List<Placed>, AllocError>
        ensures { IfOk result (λ words. words ≡ ended self) }
    {
        let mut words = self.words;
        words.push(Placed {
            word: Word::End,
            line: self.last,
        })?;
        Ok(words)
    }
}
