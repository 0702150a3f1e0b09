// The rows of a data file, and which of them a statement hits.
ghost use Rattle.std.specs.Prelude.{◌≡◌, IfOk, IsTrue};
ghost use Rattle.table_scan.specs.Scanning.{has_hit, live_rows, reads_within};

use change_sets::{LiveRow, ScannedFile};
use plain_types::List;
use row_values::Row;
use sql_predicates::Pred;
use sql_statements::holds;
use std::alloc::{AllocError, Global};

// The rows by their positions, each with whether the filter is True of it.
pub(crate) fn live_rows(
    alloc: Global,
    filter: &Pred,
    rows: List<Row>,
) -> Result<List<LiveRow>, AllocError>
    requires { IsTrue (reads_within filter.now rows) }
    ensures { IfOk result (λ live. live ≡ live_rows filter.now rows) }
{
    let mut live = Vec::new(alloc);
    for row in rows.into_vec() {
        let position = live.len() as u64;
        let hit = holds(filter, &row);
        live.push(LiveRow { position, row, hit })?;
    }
    Ok(List::from_vec(live))
}

// Whether the file has a row that is hit.
pub(crate) fn has_hit(file: &ScannedFile) -> bool
    ensures { result ≡ has_hit file.now }
{
    file.rows.as_slice().iter().any(|row| row.hit)
}
