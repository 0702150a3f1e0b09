// Rows cut into data files.

use plain_types::List;
use row_values::{Row, TableSchema};
use row_writer::row_size;
use std::alloc::{AllocError, Global};

/// So many rows close a file.
const FILE_ROWS: usize = 65_536;

/// Where the datums of a file's rows reach so many bytes, it is closed.
const FILE_BYTES: usize = 16_777_216;

/// Files in the making: the rows of those that are closed, and those of the one that is not.
#[derive(Drop)]
pub(crate) struct Pieces {
    closed: Vec<List<Row>>,
    piece: Vec<Row>,
    /// How many bytes the datums of the next rows may still take before they close the file.
    left: usize,
}

impl Pieces {
    ghost use Rattle.std.specs.Prelude.{◌≡◌, IfOk, OnOk};
    ghost use Rattle.cow_writer.specs.Pieces.{and_row, finished, nothing, seen, with_piece};

    pub(crate) fn new(alloc: Global) -> Pieces
        ensures { seen result ≡ nothing }
    {
        Pieces {
            closed: Vec::new(alloc),
            piece: Vec::new(alloc),
            left: FILE_BYTES,
        }
    }

    #[tactic(auto, unfolding(crate::specs::Pieces::and_row))]
    pub(crate) fn add(
        &mut self,
        alloc: Global,
        schema: &TableSchema,
        row: Row,
    ) -> Result<(), AllocError>
        ensures { OnOk result (seen self.new ≡ and_row schema.now.columns (seen self.old) row) }
    {
        let size = row_size(alloc, schema, row.as_slice())?;
        self.piece.push(row)?;
        if self.left <= size || self.piece.len() >= FILE_ROWS {
            return self.close(alloc);
        }
        self.left -= size;
        Ok(())
    }

    fn close(&mut self, alloc: Global) -> Result<(), AllocError>
        ensures { OnOk result (seen self.new ≡ with_piece (seen self.old)) }
    {
        let rows = std::mem::replace(&mut self.piece, Vec::new(alloc));
        self.closed.push(List::from_vec(rows))?;
        self.left = FILE_BYTES;
        Ok(())
    }

    /// The rows of each file, once the one that has rows is closed.
    pub(crate) fn finish(mut self, alloc: Global) -> Result<Vec<List<Row>>, AllocError>
        ensures { IfOk result (λ pieces. pieces.items ≡ finished (seen self)) }
    {
        if !self.piece.is_empty() {
            self.close(alloc)?;
        }
        let Pieces { closed, .. } = self;
        Ok(closed)
    }
}
