// The files that a statement removes, and the rows that it writes anew.
ghost use Rattle.std.specs.Prelude.{◌≡◌, ◌∷◌, [], IfOk, OnOk};
ghost use Rattle.std.specs.Option.{option_copied};
ghost use Rattle.change_sets.specs.Deciding.{copied_of, left_by, removed_of, rows_left, written_of};
ghost use Rattle.cow_writer.specs.Pieces.{and_rows, pieces_of, seen};

use crate::deciding::{decision_of, decisions_after, hits, is_touched};
use crate::pieces::Pieces;
use change_sets::{Decision, Decisions, LiveRow, ScannedFile, copy_entry};
use manifest_files::Entry;
use plain_types::List;
use row_values::{Row, TableSchema, copy_row};
use std::alloc::{AllocError, Global};

/// The files of which a row is removed or replaced.
#[tactic(auto, unfolding(change_sets::specs::Deciding::removed_of))]
pub(crate) fn removed_files(
    alloc: Global,
    scanned: &[ScannedFile],
    decisions: &[Decision],
) -> Result<Vec<Entry>, AllocError>
    ensures { IfOk result (λ removed. removed.items ≡ removed_of scanned.now decisions.now) }
{
    let mut removed = Vec::new(alloc);
    let mut rest = scanned;
    let mut left = decisions;
    while let [file, after @ ..] = rest {
        let (own, later) = left.split_at(hits(file.rows.as_slice()).min(left.len()));
        if is_touched(own) {
            removed.push(copy_entry(alloc, &file.entry)?)?;
        }
        rest = after;
        left = later;
    }
    Ok(removed)
}

fn add_row(
    alloc: Global,
    schema: &TableSchema,
    row: &Row,
    pieces: &mut Pieces,
) -> Result<(), AllocError>
    ensures { OnOk result (seen pieces.new ≡ and_rows schema.now.columns (seen pieces.old) (row.now ∷ [])) }
{
    pieces.add(alloc, schema, copy_row(alloc, row.as_slice())?)
}

// Adds what is left of a row.
fn add_left(
    alloc: Global,
    schema: &TableSchema,
    row: &Row,
    decision: Option<&Decision>,
    pieces: &mut Pieces,
) -> Result<(), AllocError>
    ensures { OnOk result (seen pieces.new ≡ and_rows schema.now.columns (seen pieces.old) (left_by (option_copied decision.entry) row.now)) }
{
    match decision {
        Some(Decision::Remove) => Ok(()),
        Some(Decision::Replace(new)) => add_row(alloc, schema, new, pieces),
        Some(Decision::Keep) | None => add_row(alloc, schema, row, pieces),
    }
}

// Adds what is left of the rows of a file.
#[tactic(auto, unfolding(change_sets::specs::Deciding::rows_left))]
fn add_rows_left(
    alloc: Global,
    schema: &TableSchema,
    rows: &[LiveRow],
    decisions: &[Decision],
    pieces: &mut Pieces,
) -> Result<(), AllocError>
    ensures { OnOk result (seen pieces.new ≡ and_rows schema.now.columns (seen pieces.old) (rows_left rows.now decisions.now)) }
{
    let mut rest = rows;
    let mut left = decisions;
    while let [live, after @ ..] = rest {
        add_left(alloc, schema, &live.row, decision_of(live, left), pieces)?;
        left = decisions_after(live, left);
        rest = after;
    }
    Ok(())
}

// Adds what is left of the rows of the files that are removed.
#[tactic(auto, unfolding(change_sets::specs::Deciding::copied_of))]
fn add_copied(
    alloc: Global,
    schema: &TableSchema,
    scanned: &[ScannedFile],
    decisions: &[Decision],
    pieces: &mut Pieces,
) -> Result<(), AllocError>
    ensures { OnOk result (seen pieces.new ≡ and_rows schema.now.columns (seen pieces.old) (copied_of scanned.now decisions.now)) }
{
    let mut rest = scanned;
    let mut left = decisions;
    while let [file, after @ ..] = rest {
        let (own, later) = left.split_at(hits(file.rows.as_slice()).min(left.len()));
        if is_touched(own) {
            add_rows_left(alloc, schema, file.rows.as_slice(), own, pieces)?;
        }
        rest = after;
        left = later;
    }
    Ok(())
}

fn add_inserted(
    alloc: Global,
    schema: &TableSchema,
    rows: &[Row],
    pieces: &mut Pieces,
) -> Result<(), AllocError>
    ensures { OnOk result (seen pieces.new ≡ and_rows schema.now.columns (seen pieces.old) rows.now) }
{
    let mut rest = rows;
    while let [row, after @ ..] = rest {
        add_row(alloc, schema, row, pieces)?;
        rest = after;
    }
    Ok(())
}

/// The rows of each file that is written.
pub(crate) fn written_pieces(
    alloc: Global,
    schema: &TableSchema,
    scanned: &[ScannedFile],
    decisions: &Decisions,
) -> Result<Vec<List<Row>>, AllocError>
    ensures { IfOk result (λ pieces. pieces.items ≡ pieces_of schema.now.columns (written_of scanned.now decisions.now)) }
{
    let mut pieces = Pieces::new(alloc);
    let decided = decisions.rows.as_slice();
    add_copied(alloc, schema, scanned, decided, &mut pieces)?;
    add_inserted(alloc, schema, decisions.inserted.as_slice(), &mut pieces)?;
    pieces.finish(alloc)
}
