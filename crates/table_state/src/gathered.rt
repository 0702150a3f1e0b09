// The live files of manifests, as they are read.
ghost use Rattle.std.specs.Prelude.{◌≡◌, ◌<◌, ◌≤◌, ◌+◌, [], ◌∷◌, length, IsErrOf};
ghost use Rattle.plain_types.specs.Appends.{Appends};
ghost use Rattle.std.specs.Option.{ForSome};
ghost use Rattle.plain_types.specs.Answers.{AnswersTold};
ghost use Rattle.plain_types.specs.Causes.{HasCause};
ghost use Rattle.table_metadata.specs.Metadata.{parts};
ghost use Rattle.table_state.specs.Gathering.{gathered_at, live_data, live_deletes, nothing, seen};

use crate::files::read_manifest_at;
use crate::load_fault::LoadFault;
use crate::state::LiveCount;
use manifest_files::{Content, Entry, ManifestRow};
use plain_types::List;
use std::alloc::{AllocError, Global};
use store_core::Store;
use table_metadata::Metadata;

// The live files so far, and how many each manifest holds.
#[derive(Drop)]
pub(crate) struct Gathered {
    pub(crate) data_files: Vec<Entry>,
    pub(crate) deletes: Vec<Entry>,
    pub(crate) counts: Vec<LiveCount>,
}

impl Gathered {
    ghost use Rattle.std.specs.Prelude.{◌≡◌, OnOk};
    ghost use Rattle.table_state.specs.Gathering.{and_manifest, nothing, seen};

    pub(crate) fn new(alloc: Global) -> Gathered
        ensures { seen result ≡ nothing }
    {
        Gathered {
            data_files: Vec::new(alloc),
            deletes: Vec::new(alloc),
            counts: Vec::new(alloc),
        }
    }

    // Takes what the entries of one more manifest hold live.
    fn add(&mut self, entries: List<Entry>) -> Result<(), AllocError>
        ensures { OnOk result (seen self.new ≡ and_manifest (seen self.old) entries) }
    {
        let data_files = self.data_files.len();
        let deletes = self.deletes.len();
        move_live(entries, &mut self.data_files, &mut self.deletes)?;
        self.counts.push(LiveCount {
            data_files: self.data_files.len().saturating_sub(data_files),
            deletes: self.deletes.len().saturating_sub(deletes),
        })?;
        Ok(())
    }
}

fn move_live(
    entries: List<Entry>,
    data_files: &mut Vec<Entry>,
    deletes: &mut Vec<Entry>,
) -> Result<(), AllocError>
    ensures data_files { Appends data_files.old.items data_files.new.items (live_data entries) result }
    ensures deletes { Appends deletes.old.items deletes.new.items (live_deletes entries) result }
{
    for entry in entries.into_vec() {
        place(entry, data_files, deletes)?;
    }
    Ok(())
}

fn place(
    entry: Entry,
    data_files: &mut Vec<Entry>,
    deletes: &mut Vec<Entry>,
) -> Result<(), AllocError>
    ensures data_files { Appends data_files.old.items data_files.new.items (live_data (entry ∷ [])) result }
    ensures deletes { Appends deletes.old.items deletes.new.items (live_deletes (entry ∷ [])) result }
{
    if entry.status >= 2 {
        return Ok(());
    }
    match entry.content {
        Content::Data => data_files.push(entry)?,
        Content::PositionDeletes | Content::EqualityDeletes => deletes.push(entry)?,
    }
    Ok(())
}

// What the manifests of these rows hold live.
#[tactic(auto, unfolding(crate::specs::Gathering::gathered_at))]
pub(crate) fn gather<S: Store>(
    alloc: Global,
    store: &mut S,
    table: &str,
    metadata: &Metadata,
    rows: &[ManifestRow],
) -> Result<Gathered, LoadFault>
    ensures answers { AnswersTold LoadFault.Store LoadFault.Memory (λ gathered. seen gathered)
        result (S.files store.old) (λ files. gathered_at table.now (parts metadata.now) nothing rows.now files) }
    ensures files { S.files store.new ≡ S.files store.old }
    ensures unsettled { IsErrOf result LoadFault.Store → 0 < S.unsettled store.new }
    ensures cause { HasCause LoadFault.Store LoadFault.Memory (S.faults store.old) (S.faults store.new) result }
    ensures reads { S.reads store.new ≤ S.reads store.old + length rows.now }
{
    let mut gathered = Gathered::new(alloc);
    let mut rest = rows;
    while let [row, after @ ..] = rest {
        let entries = read_manifest_at(alloc, store, table, metadata, row)?;
        gathered.add(entries)?;
        rest = after;
    }
    Ok(gathered)
}
