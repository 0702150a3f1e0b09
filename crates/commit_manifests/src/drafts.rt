//! The manifests that a commit writes, before they have names.
ghost use Rattle.std.specs.Prelude.{◌≡◌, IfOk, []};
ghost use Rattle.manifest_writer.specs.EntryDatum.{entry_size};
ghost use Rattle.commit_manifests.specs.Drafts.{spec_in};

use manifest_files::{Entry, ManifestContent};
use manifest_writer::entry_size;
use plain_types::List;
use row_values::{Spec, TableSchema};
use std::alloc::{AllocError, Global};
use table_metadata::spec_with;

/// A manifest's entries, all of one partition spec.
#[derive(Debug, Drop)]
pub struct Draft {
    pub spec: i32,
    pub content: ManifestContent,
    pub entries: List<Entry>,
}

/// Where entries of a manifest reach so many bytes, it is closed.
const MANIFEST_BYTES: usize = 16_777_216;

/// Manifests in the making: those that are closed, and the entries of the one that is not.
#[derive(Drop)]
pub struct Drafts {
    pub closed: Vec<Draft>,
    spec: i32,
    content: ManifestContent,
    piece: Vec<Entry>,
    /// How many bytes the entries of the next manifest may still take before they close it.
    left: usize,
}

impl Drafts {
    ghost use Rattle.std.specs.Prelude.{◌≡◌, OnOk, map};
    ghost use Rattle.commit_manifests.specs.Drafts.{and_entry, begun, finished, nothing, seen, with_piece};

    pub fn new(alloc: Global) -> Drafts
        ensures { seen result ≡ nothing }
    {
        Drafts {
            closed: Vec::new(alloc),
            spec: 0,
            content: ManifestContent::Data,
            piece: Vec::new(alloc),
            left: MANIFEST_BYTES,
        }
    }

    /// What comes next is of this spec.
    pub fn begin(&mut self, spec: i32, content: ManifestContent)
        ensures { seen self.new ≡ begun spec content (seen self.old) }
    {
        self.spec = spec;
        self.content = content;
    }

    #[tactic(auto, unfolding(crate::specs::Drafts::and_entry))]
    pub fn add(
        &mut self,
        alloc: Global,
        specs: &[Spec],
        schema: &TableSchema,
        entry: Entry,
    ) -> Result<(), AllocError>
        ensures { OnOk result (seen self.new ≡ and_entry specs.now schema.now (seen self.old) entry) }
    {
        let size = size_in(alloc, specs, self.spec, schema, &entry)?;
        self.piece.push(entry)?;
        if self.left <= size {
            return self.close(alloc);
        }
        self.left -= size;
        Ok(())
    }

    fn close(&mut self, alloc: Global) -> Result<(), AllocError>
        ensures { OnOk result (seen self.new ≡ with_piece (seen self.old)) }
    {
        let entries = std::mem::replace(&mut self.piece, Vec::new(alloc));
        self.closed.push(Draft {
            spec: self.spec,
            content: self.content,
            entries: List::from_vec(entries),
        })?;
        self.left = MANIFEST_BYTES;
        Ok(())
    }

    /// Closes the manifest that has entries.
    pub fn finish(&mut self, alloc: Global) -> Result<(), AllocError>
        ensures { OnOk result (seen self.new ≡ finished (seen self.old)) }
    {
        if self.piece.is_empty() {
            Ok(())
        } else {
            self.close(alloc)
        }
    }
}

/// A spec without fields.
pub fn unpartitioned(alloc: Global, id: i32) -> Spec
    ensures { result ≡ record { id = id; fields = [] } }
{
    Spec {
        id,
        fields: List::new(alloc),
    }
}

fn size_in(
    alloc: Global,
    specs: &[Spec],
    id: i32,
    schema: &TableSchema,
    entry: &Entry,
) -> Result<usize, AllocError>
    ensures { IfOk result (λ size. size ≡ entry_size (spec_in specs.now id) schema.now entry.now) }
{
    match spec_with(id, specs) {
        Some(spec) => entry_size(alloc, spec, schema, entry),
        None => entry_size(alloc, &unpartitioned(alloc, id), schema, entry),
    }
}
