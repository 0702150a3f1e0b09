//! The numbers of an entry, which an added file inherits where the entry leaves them null.
ghost use Rattle.std.specs.Prelude.{◌≡◌};
ghost use Rattle.manifest_files.specs.Inheritance.{inherited, kept, numbered};

use crate::{ManifestFault, ManifestRow, field_ids};

/// What an entry itself says.
#[derive(Clone, Copy, Debug, PartialEq, Eq)]
pub struct RawNumbers {
    pub status: u8,
    pub snapshot: Option<i64>,
    pub seq: Option<i64>,
    pub file_seq: Option<i64>,
}

/// What holds of it in its list.
#[derive(Clone, Copy, Debug, PartialEq, Eq)]
pub struct Numbers {
    pub snapshot: i64,
    pub seq: i64,
    pub file_seq: i64,
}

/// The numbers of a file that this manifest's snapshot added.
fn inherited(row: &ManifestRow, raw: &RawNumbers) -> Numbers
    ensures { result ≡ inherited row.now raw.now }
{
    Numbers {
        snapshot: raw.snapshot.unwrap_or(row.added_snapshot_id),
        seq: raw.seq.unwrap_or(row.sequence_number),
        file_seq: raw.file_seq.unwrap_or(row.sequence_number),
    }
}

/// The numbers of a file that an earlier snapshot added.
#[tactic(auto, unfolding(crate::specs::Inheritance::kept))]
fn kept(raw: &RawNumbers) -> Result<Numbers, ManifestFault>
    ensures { result ≡ kept raw.now }
{
    let Some(snapshot) = raw.snapshot else {
        return Err(ManifestFault::Kind(field_ids::SNAPSHOT_ID));
    };
    let Some(seq) = raw.seq else {
        return Err(ManifestFault::Kind(field_ids::SEQUENCE_NUMBER));
    };
    Ok(Numbers {
        snapshot,
        seq,
        file_seq: raw.file_seq.unwrap_or(seq),
    })
}

pub(crate) fn numbered(row: &ManifestRow, raw: &RawNumbers) -> Result<Numbers, ManifestFault>
    ensures { result ≡ numbered row.now raw.now }
{
    if raw.status == 1 {
        Ok(inherited(row, raw))
    } else {
        kept(raw)
    }
}
