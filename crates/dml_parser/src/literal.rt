// Literals and names.
ghost use Rattle.std.specs.Prelude.{◌≡◌};
ghost use Rattle.plain_types.specs.Answers.{Answers};
ghost use Rattle.dml_parser.specs.Literals.{
  expression_at,
  is_long_name,
  is_quoted,
  is_session_name,
  key_spelling,
  literal_at,
  name_at,
  name_fault,
  session_name_at,
  spelling_of,
  unquoted,
};

use crate::ScriptFault;
use crate::front::{Later, refuse_later};
use crate::raw::{Literal, PlacedName, Spelling};
use plain_types::Bytes;
use script_words::{Keyword, Placed, Word, is_plain_name};
use std::alloc::Global;

/// A name is at most so many bytes long.
const LONGEST_NAME: usize = 64;

/// A session's name is at most so many bytes long.
const LONGEST_SESSION: usize = 32;

fn is_long_name(name: &[u8]) -> bool
    ensures { result ≡ is_long_name name.now }
{
    name.len() > LONGEST_NAME
}

/// Why a name may not stand where a literal has to: an expression with columns is not read yet.
fn name_fault(name: &[u8], line: u32) -> ScriptFault
    ensures { result ≡ name_fault name.now line }
{
    if is_long_name(name) {
        ScriptFault::Form(line)
    } else {
        ScriptFault::Later(line)
    }
}

fn key_spelling(key: Keyword, line: u32) -> Result<Spelling, ScriptFault>
    ensures { Answers ScriptFault.Memory (λ spelling. spelling) result (key_spelling key line) }
{
    match key {
        Keyword::Null => Ok(Spelling::Null),
        Keyword::True => Ok(Spelling::Bool(true)),
        Keyword::False => Ok(Spelling::Bool(false)),
        Keyword::Date | Keyword::Timestamp | Keyword::X => Err(ScriptFault::Later(line)),
        _ => Err(ScriptFault::Form(line)),
    }
}

#[tactic(auto, unfolding(crate::specs::Literals::spelling_of))]
fn spelling_of(alloc: Global, word: &Word, line: u32) -> Result<Spelling, ScriptFault>
    ensures { Answers ScriptFault.Memory (λ spelling. spelling) result (spelling_of word.now line) }
{
    match word {
        Word::Key(key) => key_spelling(*key, line),
        Word::Name(name) | Word::Quoted(name) => Err(name_fault(name.as_slice(), line)),
        Word::Number(number) => Ok(Spelling::Number(Bytes::copy_of(alloc, number.as_slice())?)),
        Word::Text(text) => Ok(Spelling::Text(Bytes::copy_of(alloc, text.as_slice())?)),
        Word::Mark(_) | Word::Bad | Word::End => Err(ScriptFault::Form(line)),
    }
}

/// The literal in front, and what follows it.
#[tactic(auto, unfolding(crate::specs::Literals::literal_at))]
pub(crate) fn literal_at(
    alloc: Global,
    words: &[Placed],
) -> Result<(Literal, &[Placed]), ScriptFault>
    ensures { Answers ScriptFault.Memory (λ x. (x.0, x.1.now)) result (literal_at words.now) }
{
    match words {
        [first, rest @ ..] => {
            let line = first.line;
            let spelling = spelling_of(alloc, &first.word, line)?;
            Ok((Literal { line, spelling }, rest))
        }
        [] => Err(ScriptFault::Form(1)),
    }
}

/// The expression in front, of which only literals are read yet.
#[tactic(auto, unfolding(crate::specs::Literals::expression_at))]
pub(crate) fn expression_at(
    alloc: Global,
    words: &[Placed],
) -> Result<(Literal, &[Placed]), ScriptFault>
    ensures { Answers ScriptFault.Memory (λ x. (x.0, x.1.now)) result (expression_at words.now) }
{
    refuse_later(Later::Group, words)?;
    literal_at(alloc, words)
}

/// The name in front, and what follows it.
#[tactic(auto, unfolding(crate::specs::Literals::name_at))]
pub(crate) fn name_at(
    alloc: Global,
    words: &[Placed],
) -> Result<(PlacedName, &[Placed]), ScriptFault>
    ensures { Answers ScriptFault.Memory (λ x. (x.0, x.1.now)) result (name_at words.now) }
{
    match words {
        [first, rest @ ..] => {
            let line = first.line;
            let (Word::Name(name) | Word::Quoted(name)) = &first.word else {
                return Err(ScriptFault::Form(line));
            };
            if is_long_name(name.as_slice()) {
                return Err(ScriptFault::Form(line));
            }
            let text = Bytes::copy_of(alloc, name.as_slice())?;
            Ok((PlacedName { line, text }, rest))
        }
        [] => Err(ScriptFault::Form(1)),
    }
}

fn is_session_name(name: &[u8]) -> bool
    ensures { result ≡ is_session_name name.now }
{
    name.len() <= LONGEST_SESSION && is_plain_name(name)
}

// A session's name stands without backquotes.
#[tactic(auto, unfolding(crate::specs::Literals::unquoted))]
fn refuse_quoted(words: &[Placed]) -> Result<(), ScriptFault>
    ensures { result ≡ unquoted words.now }
{
    match words {
        [first, ..] => {
            if is_quoted(&first.word) {
                Err(ScriptFault::Form(first.line))
            } else {
                Ok(())
            }
        }
        [] => Ok(()),
    }
}

fn is_quoted(word: &Word) -> bool
    ensures { result ≡ is_quoted word.now }
{
    matches!(word, Word::Quoted(_))
}

/// The session's name in front, and what follows it.
#[tactic(auto, unfolding(crate::specs::Literals::session_name_at))]
pub(crate) fn session_name_at(
    alloc: Global,
    words: &[Placed],
) -> Result<(PlacedName, &[Placed]), ScriptFault>
    ensures { Answers ScriptFault.Memory (λ x. (x.0, x.1.now)) result (session_name_at words.now) }
{
    refuse_quoted(words)?;
    let (name, rest) = name_at(alloc, words)?;
    if is_session_name(name.text.as_slice()) {
        Ok((name, rest))
    } else {
        Err(ScriptFault::Form(name.line))
    }
}
