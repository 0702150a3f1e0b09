// The word in front.
ghost use Rattle.std.specs.Prelude.{◌≡◌};
ghost use Rattle.plain_types.specs.Answers.{Answers};
ghost use Rattle.dml_parser.specs.Front.{is_later, is_wanted, line_of, refuse_later, skipped, wanted_at};

use crate::ScriptFault;
use script_words::{Keyword, Mark, Placed, Word};

/// A word that may have to stand in a place.
#[derive(Clone, Copy, Debug, PartialEq, Eq)]
pub(crate) enum Wanted {
    From,
    Into,
    Values,
    Where,
    Open,
    Close,
    Comma,
    Semicolon,
    Point,
    Equal,
}

/// What a place has in a form that is not read yet.
#[derive(Clone, Copy, Debug, PartialEq, Eq)]
pub(crate) enum Later {
    /// The point before a branch.
    Branch,
    /// The parenthesis before names or an expression.
    Group,
    /// An operator of an expression.
    Arithmetic,
    /// What compares other than for equality.
    Comparison,
    /// AND or OR.
    Junction,
    /// What begins a predicate that does not begin with a column.
    Predicate,
}

pub(crate) fn line_of(words: &[Placed]) -> u32
    ensures { result ≡ line_of words.now }
{
    match words {
        [first, ..] => first.line,
        [] => 1,
    }
}

fn is_wanted(wanted: Wanted, word: &Word) -> bool
    ensures { result ≡ is_wanted wanted word.now }
{
    match wanted {
        Wanted::From => matches!(word, Word::Key(Keyword::From)),
        Wanted::Into => matches!(word, Word::Key(Keyword::Into)),
        Wanted::Values => matches!(word, Word::Key(Keyword::Values)),
        Wanted::Where => matches!(word, Word::Key(Keyword::Where)),
        Wanted::Open => matches!(word, Word::Mark(Mark::Open)),
        Wanted::Close => matches!(word, Word::Mark(Mark::Close)),
        Wanted::Comma => matches!(word, Word::Mark(Mark::Comma)),
        Wanted::Semicolon => matches!(word, Word::Mark(Mark::Semicolon)),
        Wanted::Point => matches!(word, Word::Mark(Mark::Point)),
        Wanted::Equal => matches!(word, Word::Mark(Mark::Equal)),
    }
}

/// Whether the wanted word is in front, and what follows it.
pub(crate) fn skipped(wanted: Wanted, words: &[Placed]) -> (bool, &[Placed])
    ensures { (result.0, result.1.now) ≡ skipped wanted words.now }
{
    match words {
        [first, rest @ ..] => {
            if is_wanted(wanted, &first.word) {
                (true, rest)
            } else {
                (false, words)
            }
        }
        [] => (false, words),
    }
}

/// What follows the wanted word, which has to be in front.
#[tactic(auto, unfolding(crate::specs::Front::wanted_at))]
pub(crate) fn wanted_at(wanted: Wanted, words: &[Placed]) -> Result<&[Placed], ScriptFault>
    ensures { Answers ScriptFault.Memory (λ rest. rest.now) result (wanted_at wanted words.now) }
{
    let (is_there, rest) = skipped(wanted, words);
    if is_there {
        Ok(rest)
    } else {
        Err(ScriptFault::Form(line_of(words)))
    }
}

fn is_comparison(word: &Word) -> bool
    ensures { result ≡ is_later Later.Comparison word.now }
{
    match word {
        Word::Mark(mark) => matches!(
            mark,
            Mark::NotEqual | Mark::Less | Mark::LessOrEqual | Mark::Greater | Mark::GreaterOrEqual
        ),
        Word::Key(key) => matches!(
            key,
            Keyword::Is | Keyword::In | Keyword::Between | Keyword::Not
        ),
        _ => false,
    }
}

fn is_predicate(word: &Word) -> bool
    ensures { result ≡ is_later Later.Predicate word.now }
{
    match word {
        Word::Mark(mark) => matches!(mark, Mark::Open),
        Word::Key(key) => matches!(
            key,
            Keyword::Not
                | Keyword::True
                | Keyword::False
                | Keyword::Null
                | Keyword::Date
                | Keyword::Timestamp
                | Keyword::X
        ),
        Word::Number(_) | Word::Text(_) => true,
        _ => false,
    }
}

fn is_later(later: Later, word: &Word) -> bool
    ensures { result ≡ is_later later word.now }
{
    match later {
        Later::Branch => matches!(word, Word::Mark(Mark::Point)),
        Later::Group => matches!(word, Word::Mark(Mark::Open)),
        Later::Arithmetic => { matches!(word, Word::Mark(Mark::Plus | Mark::Minus | Mark::Star)) }
        Later::Comparison => is_comparison(word),
        Later::Junction => matches!(word, Word::Key(Keyword::And | Keyword::Or)),
        Later::Predicate => is_predicate(word),
    }
}

/// Such a form is not read yet.
#[tactic(auto, unfolding(crate::specs::Front::refuse_later))]
pub(crate) fn refuse_later(later: Later, words: &[Placed]) -> Result<(), ScriptFault>
    ensures { result ≡ refuse_later later words.now }
{
    match words {
        [first, ..] => {
            if is_later(later, &first.word) {
                Err(ScriptFault::Later(first.line))
            } else {
                Ok(())
            }
        }
        [] => Ok(()),
    }
}
