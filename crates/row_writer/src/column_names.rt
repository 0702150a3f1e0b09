//! The names of the fields.
ghost use Rattle.std.specs.Prelude.{◌≡◌, IfOk};
ghost use Rattle.row_values.specs.Columns.{has_name};
ghost use Rattle.row_writer.specs.RowTypes.{are_names, column_name};

use crate::names::{id_name, is_name};
use avro_binary::Octets;
use row_values::{Column, has_name};
use std::alloc::{AllocError, Global};

/// Whether each column has a name of Avro of its own.
#[tactic(auto, unfolding(crate::specs::RowTypes::are_names))]
pub(crate) fn are_names(columns: &[Column]) -> bool
    ensures { result ≡ are_names columns.now }
{
    let mut rest = columns;
    while let [column, after @ ..] = rest {
        if !is_name(column.name.as_bytes()) || has_name(column.name.as_str(), after) {
            return false;
        }
        rest = after;
    }
    true
}

pub(crate) fn column_name(alloc: Global, keeps: bool, column: &Column) -> Result<Octets, AllocError>
    ensures { IfOk result (λ name. name ≡ column_name keeps column.now) }
{
    if keeps {
        return Octets::copy_of(alloc, column.name.as_bytes());
    }
    let name = id_name(alloc, column.id)?;
    Octets::copy_of(alloc, name.as_bytes())
}
