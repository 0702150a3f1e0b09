ghost use Rattle.std.specs.Prelude.{◌≡◌, [], Ok};
ghost use Rattle.plain_types.specs.Answers.{Answers};
ghost use Rattle.dml_parser.specs.Script.{
  after_item,
  ends,
  is_bad,
  is_end,
  is_semicolon,
  read_item,
  read_items,
  script_in,
  script_in_text,
  script_of,
  started,
  tokens_stand,
  with_statement,
  within,
};
ghost use Rattle.dml_parser.specs.Values.{text_of};

use crate::form::{Within, item_at};
use crate::front::line_of;
use crate::items::{delete_of, insert_of};
use crate::raw::Item;
use crate::values::text_of;
use crate::{Script, ScriptFault, SessionItem};
use plain_types::{List, Text};
use row_values::{Column, TableSchema};
use script_words::{Mark, Placed, Word, words_of};
use sql_statements::Statement;
use std::alloc::Global;
use std::str;

/// A script is at most so many bytes long.
const LONGEST_SCRIPT: usize = 1048576;

/// What was read of a script: the session, once it is named, and its statements.
#[derive(Debug, Drop)]
pub(crate) struct Progress {
    pub(crate) session: Option<Text>,
    pub(crate) statements: List<Statement>,
}

fn is_bad(word: &Word) -> bool
    ensures { result ≡ is_bad word.now }
{
    matches!(word, Word::Bad)
}

fn is_end(word: &Word) -> bool
    ensures { result ≡ is_end word.now }
{
    matches!(word, Word::End)
}

fn is_semicolon(word: &Word) -> bool
    ensures { result ≡ is_semicolon word.now }
{
    matches!(word, Word::Mark(Mark::Semicolon))
}

/// Whether everything up to the item's semicolon is a word.
#[tactic(auto, unfolding(crate::specs::Script::tokens_stand))]
fn tokens_stand(words: &[Placed]) -> Result<(), ScriptFault>
    ensures { result ≡ tokens_stand words.now }
{
    let mut rest = words;
    while let [first, after @ ..] = rest {
        if is_bad(&first.word) {
            return Err(ScriptFault::Token(first.line));
        }
        if is_semicolon(&first.word) {
            return Ok(());
        }
        rest = after;
    }
    Ok(())
}

fn within(session: &Option<Text>) -> Within
    ensures { result ≡ within session.now }
{
    match session {
        Some(_) => Within::Session,
        None => Within::Script,
    }
}

fn with_statement(progress: Progress, statement: Statement) -> Result<Progress, ScriptFault>
    ensures { Answers ScriptFault.Memory (λ after. after) result (Ok (with_statement progress statement)) }
{
    let Progress {
        session,
        mut statements,
    } = progress;
    statements.push(statement)?;
    Ok(Progress {
        session,
        statements,
    })
}

/// What was read after one more item, which begins on this line.
#[tactic(auto, unfolding(crate::specs::Script::after_item))]
fn after_item(
    alloc: Global,
    columns: &[Column],
    progress: Progress,
    line: u32,
    item: &Item,
) -> Result<Progress, ScriptFault>
    ensures { Answers ScriptFault.Memory (λ after. after) result (after_item columns.now progress line item.now) }
{
    let count = progress.statements.len();
    match item {
        Item::Session(name) => {
            let session = Some(text_of(alloc, name.as_slice())?);
            let statements = progress.statements;
            Ok(Progress {
                session,
                statements,
            })
        }
        Item::Insert(rows) => {
            let statement = insert_of(alloc, columns, count, line, rows.as_slice())?;
            with_statement(progress, statement)
        }
        Item::Delete(equality) => {
            let statement = delete_of(alloc, columns, count, line, equality)?;
            with_statement(progress, statement)
        }
    }
}

/// What was read after the item in front, and what follows it.
#[tactic(auto, unfolding(crate::specs::Script::read_item))]
fn read_item<'w>(
    alloc: Global,
    columns: &[Column],
    progress: Progress,
    words: &'w [Placed],
) -> Result<(Progress, &'w [Placed]), ScriptFault>
    ensures { Answers ScriptFault.Memory (λ x. (x.0, x.1.now)) result (read_item columns.now progress words.now) }
{
    tokens_stand(words)?;
    let (item, rest) = item_at(alloc, columns, within(&progress.session), words)?;
    let after = after_item(alloc, columns, progress, line_of(words), &item)?;
    Ok((after, rest))
}

fn ends(words: &[Placed]) -> bool
    ensures { result ≡ ends words.now }
{
    match words {
        [first, ..] => is_end(&first.word),
        [] => true,
    }
}

fn started(alloc: Global) -> Progress
    ensures { result ≡ started }
{
    Progress {
        session: None,
        statements: List::new(alloc),
    }
}

/// What was read of all items.
#[tactic(auto, unfolding(crate::specs::Script::read_items))]
fn read_items(alloc: Global, columns: &[Column], words: &[Placed]) -> Result<Progress, ScriptFault>
    ensures { Answers ScriptFault.Memory (λ progress. progress) result (read_items columns.now words.now started words.now) }
{
    let mut progress = started(alloc);
    let mut rest = words;
    let mut bound = words;
    while let [_, fewer @ ..] = bound {
        if ends(rest) {
            return Ok(progress);
        }
        let (after, next) = read_item(alloc, columns, progress, rest)?;
        progress = after;
        rest = next;
        bound = fewer;
    }
    Ok(progress)
}

fn script_in(alloc: Global, progress: Progress) -> Result<Script, ScriptFault>
    ensures { Answers ScriptFault.Memory (λ script. script) result (Ok (script_in progress)) }
{
    let Progress {
        session,
        statements,
    } = progress;
    let mut sessions = List::new(alloc);
    if let Some(name) = session {
        sessions.push(SessionItem { name, statements })?;
    }
    Ok(Script { sessions })
}

#[tactic(auto, unfolding(crate::specs::Script::script_in_text))]
fn script_in_text(alloc: Global, columns: &[Column], text: &str) -> Result<Script, ScriptFault>
    ensures { Answers ScriptFault.Memory (λ script. script) result (script_in_text columns.now text.now) }
{
    let words = words_of(alloc, text)?;
    let progress = read_items(alloc, columns, words.as_slice())?;
    script_in(alloc, progress)
}

/// The text that the bytes are.
fn text_in(bytes: &[u8]) -> Result<&str, ScriptFault>
    ensures { Answers ScriptFault.Memory (λ text. text.now) result (text_of bytes.now) }
{
    match str::from_utf8(bytes) {
        Ok(text) => Ok(text),
        Err(_) => Err(ScriptFault::Text),
    }
}

/// Reads a script on a table of this schema.
#[tactic(auto, unfolding(crate::specs::Script::script_of))]
pub fn read_script(alloc: Global, bytes: &[u8], schema: &TableSchema) -> Result<Script, ScriptFault>
    ensures answers { Answers ScriptFault.Memory (λ script. script) result (script_of bytes.now schema.now) }
{
    if bytes.len() > LONGEST_SCRIPT {
        return Err(ScriptFault::Limit(1));
    }
    let text = text_in(bytes)?;
    script_in_text(alloc, schema.columns.as_slice(), text)
}
