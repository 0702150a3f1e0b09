//! An entry of a manifest.
ghost use Rattle.std.specs.Prelude.{◌≡◌};
ghost use Rattle.manifest_files.specs.Entries.{is_live};

use kind_values::Stats;
use row_values::{List, Row, Text};

/// What a file holds.
#[derive(Clone, Copy, Debug, PartialEq, Eq)]
pub enum Content {
    Data,
    PositionDeletes,
    EqualityDeletes,
}

/// A file that a snapshot adds, keeps or deletes.
#[derive(Debug, PartialEq, Drop)]
pub struct Entry {
    /// 0 for an existing file, 1 for an added one, 2 for a deleted one.
    pub status: u8,
    pub snapshot: i64,
    pub seq: i64,
    pub file_seq: i64,
    pub content: Content,
    pub path: Text,
    /// The id of the spec that the file is partitioned by.
    pub spec: i32,
    /// One value for each field of the spec, in order.
    pub partition: Row,
    pub count: u64,
    pub size: u64,
    pub stats: Stats,
    pub equality_ids: List<i32>,
    /// The data file that all of a position delete file's rows are of.
    pub referenced: Option<Text>,
}

impl Entry {
    /// Whether the file is one of the snapshot's: an existing or an added one.
    pub fn is_live(&self) -> bool
        ensures { result ≡ is_live self.now.status }
    {
        is_live(self.status)
    }
}

pub(crate) fn is_live(status: u8) -> bool
    ensures { result ≡ is_live status }
{
    status < 2
}

/// What the record of a file says, beside its statistics.
#[derive(Debug, Drop)]
pub struct FileParts {
    pub content: Content,
    pub path: Text,
    pub is_avro: bool,
    pub partition: Row,
    pub count: u64,
    pub size: u64,
    pub equality_ids: List<i32>,
    pub referenced: Option<Text>,
}
