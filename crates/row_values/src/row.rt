ghost use Rattle.std.specs.Prelude.{◌≡◌, IfOk};

use crate::{Row, Value};
use plain_types::List;
use std::alloc::{AllocError, Global};

/// A row of equal values.
pub fn copy_row(alloc: Global, row: &[Value]) -> Result<Row, AllocError>
    ensures { IfOk result (λ copy. copy ≡ row.now) }
{
    let mut copy = List::new(alloc);
    for value in row {
        copy.push(value.copy(alloc)?)?;
    }
    Ok(copy)
}
