//! Which manifests a commit writes, and which of the head it keeps.
ghost use Rattle.std.specs.Prelude.{◌≡◌, ◌≤◌, IfOk, OnOk, [], length};
ghost use Rattle.commit_manifests.specs.Sorting.{has_removed, insert, place_of, rewritten, spec_ids};

use crate::drafts::Drafts;
use change_sets::{AddedAs, ChangeSet, added, copy_manifest_row, is_among, kept, removed};
use manifest_files::{Entry, ManifestContent, ManifestRow};
use row_values::{Spec, TableSchema};
use std::alloc::{AllocError, Global};
use table_state::{LiveCount, LiveSet};

#[tactic(auto, unfolding(crate::specs::Sorting::place_of))]
fn place_of(id: i32, ids: &[i32]) -> usize
    ensures place { result ≡ place_of id ids.now }
    ensures within { result ≤ length ids.now }
{
    let mut place = 0;
    let mut rest = ids;
    while let [one, after @ ..] = rest {
        if id < *one {
            return place;
        }
        place += 1;
        rest = after;
    }
    place
}

/// The ids of the entries' specs, each once, rising.
#[tactic(auto, unfolding(crate::specs::Sorting::spec_ids))]
fn spec_ids(alloc: Global, entries: &[Entry]) -> Result<Vec<i32>, AllocError>
    ensures { IfOk result (λ ids. ids.items ≡ spec_ids [] entries.now) }
{
    let mut ids: Vec<i32> = Vec::new(alloc);
    let mut rest = entries;
    while let [entry, after @ ..] = rest {
        insert(entry.spec, &mut ids)?;
        rest = after;
    }
    Ok(ids)
}

fn insert(id: i32, ids: &mut Vec<i32>) -> Result<(), AllocError>
    ensures { OnOk result (ids.new.items ≡ insert id ids.old.items) }
{
    if ids.contains(&id) {
        return Ok(());
    }
    let place = place_of(id, ids.as_slice());
    ids.insert(place, id)?;
    Ok(())
}

/// The manifests that a commit writes, and the rows of those of the head that stand.
#[derive(Drop)]
pub struct Sorted {
    pub drafts: Drafts,
    pub standing: Vec<ManifestRow>,
}

/// What the manifests of a commit are made by.
#[derive(Clone, Copy)]
pub struct Commit<'a> {
    pub specs: &'a [Spec],
    pub schema: &'a TableSchema,
    pub numbers: AddedAs,
    /// The files that the commit removes.
    pub removed: &'a [Entry],
}

impl Commit<'_> {
    ghost use Rattle.std.specs.Prelude.{◌≡◌, IfOk, OnOk, []};
    ghost use Rattle.commit_manifests.specs.Drafts.{seen};
    ghost use Rattle.commit_manifests.specs.Sorting.{
      added_drafts,
      and_group,
      and_groups,
      and_manifest,
      and_rewritten,
      seen_sorted,
      sorted_from,
      sorted_of,
      spec_ids,
    };

    // Adds the entries of one spec.
    #[tactic(auto, unfolding(crate::specs::Sorting::and_group))]
    fn add_group(
        &self,
        alloc: Global,
        id: i32,
        entries: &[Entry],
        drafts: &mut Drafts,
    ) -> Result<(), AllocError>
        ensures { OnOk result (seen drafts.new ≡ and_group self.now.specs.now self.now.schema.now self.now.numbers id (seen drafts.old) entries.now) }
    {
        let mut rest = entries;
        while let [entry, after @ ..] = rest {
            if entry.spec == id {
                let entry = added(alloc, entry, self.numbers)?;
                drafts.add(alloc, self.specs, self.schema, entry)?;
            }
            rest = after;
        }
        Ok(())
    }

    // Adds manifests of the entries, spec by spec.
    #[tactic(auto, unfolding(crate::specs::Sorting::and_groups))]
    fn add_groups(
        &self,
        alloc: Global,
        content: ManifestContent,
        entries: &[Entry],
        drafts: &mut Drafts,
    ) -> Result<(), AllocError>
        ensures { OnOk result (seen drafts.new ≡ and_groups self.now.specs.now self.now.schema.now self.now.numbers content entries.now (seen drafts.old)
            (spec_ids [] entries.now)) }
    {
        let ids = spec_ids(alloc, entries)?;
        let mut rest = ids.as_slice();
        while let [id, after @ ..] = rest {
            drafts.begin(*id, content);
            self.add_group(alloc, *id, entries, drafts)?;
            drafts.finish(alloc)?;
            rest = after;
        }
        Ok(())
    }

    // The manifests of the files that are added.
    #[tactic(auto, unfolding(crate::specs::Sorting::added_drafts))]
    fn added_drafts(&self, alloc: Global, change: &ChangeSet) -> Result<Drafts, AllocError>
        ensures { IfOk result (λ d. seen d ≡ added_drafts self.now.specs.now self.now.schema.now self.now.numbers change.now) }
    {
        let mut drafts = Drafts::new(alloc);
        let data_files = change.added_data.as_slice();
        self.add_groups(alloc, ManifestContent::Data, data_files, &mut drafts)?;
        let deletes = change.added_deletes.as_slice();
        self.add_groups(alloc, ManifestContent::Deletes, deletes, &mut drafts)?;
        Ok(drafts)
    }

    // Adds entries of a manifest that is written anew, of which these are removed.
    #[tactic(auto, unfolding(crate::specs::Sorting::and_rewritten))]
    fn add_rewritten(
        &self,
        alloc: Global,
        gone: &[Entry],
        entries: &[Entry],
        drafts: &mut Drafts,
    ) -> Result<(), AllocError>
        ensures { OnOk result (seen drafts.new ≡ and_rewritten self.now.specs.now self.now.schema.now gone.now self.now.numbers.snapshot (seen drafts.old) entries.now) }
    {
        let mut rest = entries;
        while let [entry, after @ ..] = rest {
            let entry = rewritten(alloc, gone, self.numbers.snapshot, entry)?;
            drafts.add(alloc, self.specs, self.schema, entry)?;
            rest = after;
        }
        Ok(())
    }

    // Writes anew a manifest of the head that holds these files live, or lets it stand, or leaves it out.
    fn add_manifest(
        &self,
        alloc: Global,
        row: &ManifestRow,
        data_files: &[Entry],
        deletes: &[Entry],
        sorted: &mut Sorted,
    ) -> Result<(), AllocError>
        ensures { OnOk result (seen_sorted sorted.new ≡ and_manifest self.now.specs.now self.now.schema.now self.now.removed.now self.now.numbers.snapshot
            (seen_sorted sorted.old) row.now data_files.now deletes.now) }
    {
        if has_removed(self.removed, data_files) {
            let drafts = &mut sorted.drafts;
            drafts.begin(row.partition_spec_id, row.content);
            self.add_rewritten(alloc, self.removed, data_files, drafts)?;
            self.add_rewritten(alloc, &[], deletes, drafts)?;
            drafts.finish(alloc)?;
        } else if !(data_files.is_empty() && deletes.is_empty()) {
            sorted.standing.push(copy_manifest_row(alloc, row)?)?;
        }
        Ok(())
    }

    // Adds the manifests of the head.
    #[tactic(auto, unfolding(crate::specs::Sorting::sorted_from))]
    fn add_head(
        &self,
        alloc: Global,
        rows: &[ManifestRow],
        counts: &[LiveCount],
        live: &LiveSet,
        sorted: &mut Sorted,
    ) -> Result<(), AllocError>
        ensures { OnOk result (seen_sorted sorted.new ≡ sorted_from self.now.specs.now self.now.schema.now self.now.removed.now self.now.numbers.snapshot
            (seen_sorted sorted.old) rows.now counts.now live.now.data_files live.now.deletes) }
    {
        let mut rest = rows;
        let mut counts = counts;
        let mut data_files = live.data_files.as_slice();
        let mut deletes = live.deletes.as_slice();
        while let [row, after @ ..] = rest {
            let [count, counts_after @ ..] = counts else {
                return Ok(());
            };
            let (own, data_after) = data_files.split_at(count.data_files.min(data_files.len()));
            let (own_deletes, deletes_after) = deletes.split_at(count.deletes.min(deletes.len()));
            self.add_manifest(alloc, row, own, own_deletes, sorted)?;
            rest = after;
            counts = counts_after;
            data_files = data_after;
            deletes = deletes_after;
        }
        Ok(())
    }

    /// Sorts the manifests of a change, and those of the head.
    #[tactic(auto, unfolding(crate::specs::Sorting::sorted_of))]
    pub fn sorted(
        &self,
        alloc: Global,
        change: &ChangeSet,
        rows: &[ManifestRow],
        counts: &[LiveCount],
        live: &LiveSet,
    ) -> Result<Sorted, AllocError>
        ensures { IfOk result (λ s. seen_sorted s ≡ sorted_of self.now.specs.now self.now.schema.now self.now.removed.now self.now.numbers change.now rows.now counts.now live.now) }
    {
        let mut sorted = Sorted {
            drafts: self.added_drafts(alloc, change)?,
            standing: Vec::new(alloc),
        };
        self.add_head(alloc, rows, counts, live, &mut sorted)?;
        Ok(sorted)
    }
}

#[tactic(auto, unfolding(crate::specs::Sorting::rewritten))]
fn rewritten(
    alloc: Global,
    gone: &[Entry],
    snapshot: i64,
    entry: &Entry,
) -> Result<Entry, AllocError>
    ensures { IfOk result (λ e. e ≡ rewritten gone.now snapshot entry.now) }
{
    if is_among(gone, entry) {
        removed(alloc, entry, snapshot)
    } else {
        kept(alloc, entry)
    }
}

#[tactic(auto, unfolding(crate::specs::Sorting::has_removed))]
fn has_removed(gone: &[Entry], entries: &[Entry]) -> bool
    ensures { result ≡ has_removed gone.now entries.now }
{
    let mut rest = entries;
    while let [entry, after @ ..] = rest {
        if is_among(gone, entry) {
            return true;
        }
        rest = after;
    }
    false
}
