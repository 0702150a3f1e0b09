// The rows that are hit.
ghost use Rattle.std.specs.Prelude.{◌≡◌, [], ◌∷◌, filter, map, IsTrue, IfOk};
ghost use Rattle.plain_types.specs.Appends.{Appends};
ghost use Rattle.sql_statements.specs.Effects as spec;
ghost use Rattle.sql_statements.specs.Fits.{are_wide};
ghost use Rattle.change_sets.specs.Scanned.{row_of};
ghost use Rattle.table_scan.specs.Scanning.{is_hit};
ghost use Rattle.table_scan.specs.Decisions.{hit_in, hit_rows};

use change_sets::{LiveRow, ScannedFile};
use plain_types::List;
use row_values::{Row, copy_row};
use sql_statements::{Source, Statement};
use std::alloc::{AllocError, Global};

fn add_hit(alloc: Global, live: &LiveRow, rows: &mut Vec<Row>) -> Result<(), AllocError>
    ensures { Appends rows.old.items rows.new.items (map row_of (filter is_hit (live.now ∷ []))) result }
{
    if live.hit {
        rows.push(copy_row(alloc, live.row.as_slice())?)?;
    }
    Ok(())
}

#[tactic(auto, using(crate::proofs::HitSteps::one_more_hit))]
fn add_hits(alloc: Global, file: &ScannedFile, rows: &mut Vec<Row>) -> Result<(), AllocError>
    ensures { Appends rows.old.items rows.new.items (hit_in file.now) result }
{
    let live_rows = file.rows.as_slice();
    for live in live_rows {
        add_hit(alloc, live, rows)?;
    }
    Ok(())
}

/// A copy of each row that is hit, file by file.
#[tactic(auto, using(sql_statements::proofs::CallerLemmas::flat_map_step))]
pub(crate) fn hit_rows(alloc: Global, scanned: &[ScannedFile]) -> Result<List<Row>, AllocError>
    ensures { IfOk result (λ rows. rows ≡ hit_rows scanned.now) }
{
    let mut rows = Vec::new(alloc);
    for file in scanned {
        add_hits(alloc, file, &mut rows)?;
    }
    Ok(List::from_vec(rows))
}

/// The rows that are hit where the statement compares them with those of its source, and else none.
pub(crate) fn compared_rows(
    alloc: Global,
    width: usize,
    sources: &[Source],
    statement: &Statement,
    scanned: &[ScannedFile],
) -> Result<List<Row>, AllocError>
    requires { IsTrue (are_wide width (hit_rows scanned.now)) }
    ensures wide { IfOk result (λ rows. IsTrue (are_wide width rows)) }
    ensures inserted { IfOk result (λ rows. spec.insertions width sources.now statement.now rows ≡ spec.insertions width sources.now statement.now (hit_rows scanned.now)) }
    ensures ambiguous { IfOk result (λ rows. spec.is_ambiguous sources.now statement.now rows ≡ spec.is_ambiguous sources.now statement.now (hit_rows scanned.now)) }
{
    match statement {
        Statement::Merge(_) => hit_rows(alloc, scanned),
        _ => Ok(List::new(alloc)),
    }
}
