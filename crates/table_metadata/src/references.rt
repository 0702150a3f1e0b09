//! The branches and tags of a table's metadata.
ghost use Rattle.std.specs.Prelude.{◌≡◌, ◌≤◌, [], length, IfOk};
ghost use Rattle.plain_types.specs.Answers.{Answers};
ghost use Rattle.serde_json.specs.View.{view, members_view};
ghost use Rattle.table_metadata.specs.References.{
  is_tag_type,
  ref_of,
  refs_from,
  listed_refs_of,
  is_main,
  lists_main,
  is_before_main,
  before_main,
  with_main,
  all_refs,
  has_snapshot,
  is_current,
  holds,
  all_hold,
  refs_of,
};

use crate::table_keys::{shape, shaped_long, shaped_text};
use crate::{MetadataFault, Snapshot};
use iceberg_schema::members_at;
use row_values::{List, Text};
use serde_json::{Map, Value};
use std::alloc::{AllocError, Global};

/// A branch or a tag, and the snapshot that it names.
#[derive(Debug, PartialEq, Drop)]
pub struct RefItem {
    pub name: Text,
    pub snapshot: i64,
    pub tag: bool,
}

/// The refs that the metadata lists.
#[tactic(auto, unfolding(crate::specs::References::listed_refs_of))]
pub(crate) fn read_listed_refs(alloc: Global, json: &Value) -> Result<Vec<RefItem>, MetadataFault>
    ensures answers { Answers MetadataFault.Memory (λ refs. refs.items) result (listed_refs_of (view json.now)) }
{
    match members_at(json, "refs") {
        Some(members) => read_members(alloc, members),
        None => Ok(Vec::new(alloc)),
    }
}

#[tactic(auto, unfolding(crate::specs::References::refs_from))]
fn read_members(alloc: Global, members: &Map<String, Value>) -> Result<Vec<RefItem>, MetadataFault>
    ensures answers { Answers MetadataFault.Memory (λ refs. refs.items) result (refs_from [] (members_view members.now.entries)) }
{
    let mut refs = Vec::new(alloc);
    for (name, value) in members.iter() {
        let reference = read_ref(alloc, name.as_str(), value)?;
        refs.push(reference)?;
    }
    Ok(refs)
}

#[tactic(auto, unfolding(crate::specs::References::ref_of))]
fn read_ref(alloc: Global, name: &str, json: &Value) -> Result<RefItem, MetadataFault>
    ensures answers { Answers MetadataFault.Memory (λ r. r) result (ref_of name.now (view json.now)) }
{
    let snapshot = shaped_long(alloc, json, "snapshot-id")?;
    let type_text = shaped_text(alloc, json, "type")?;
    let tag = is_tag_type(alloc, type_text)?;
    Ok(RefItem {
        name: Text::copy_of(alloc, name)?,
        snapshot,
        tag,
    })
}

/// Whether a ref's type is that of a tag.
#[tactic(auto, unfolding(crate::specs::References::is_tag_type))]
fn is_tag_type(alloc: Global, text: &str) -> Result<bool, MetadataFault>
    ensures answers { Answers MetadataFault.Memory (λ b. b) result (is_tag_type text.now) }
{
    if text == "branch" {
        return Ok(false);
    }
    if text == "tag" {
        return Ok(true);
    }
    Err(shape(alloc, "type"))
}

/// All refs, once each names a snapshot, and `main` the current one as a branch.
#[tactic(auto, unfolding(crate::specs::References::refs_of))]
pub(crate) fn check_refs(
    alloc: Global,
    current: Option<i64>,
    snapshots: &[Snapshot],
    listed: Vec<RefItem>,
) -> Result<List<RefItem>, MetadataFault>
    ensures answers { Answers MetadataFault.Memory (λ refs. refs) result (refs_of current snapshots.now listed.items) }
{
    let refs = all_refs(alloc, current, listed)?;
    all_hold(alloc, current, snapshots, refs.as_slice())?;
    Ok(List::from_vec(refs))
}

/// The refs that are listed, and `main` where it is not and the table has a current snapshot.
#[tactic(auto, unfolding(crate::specs::References::all_refs))]
fn all_refs(
    alloc: Global,
    current: Option<i64>,
    listed: Vec<RefItem>,
) -> Result<Vec<RefItem>, AllocError>
    ensures { IfOk result (λ refs. refs.items ≡ all_refs current listed.items) }
{
    if lists_main(listed.as_slice()) {
        return Ok(listed);
    }
    with_main(alloc, current, listed)
}

/// The refs with `main` as a branch on the current snapshot, where there is one, at its place among them.
#[tactic(auto, unfolding(crate::specs::References::with_main))]
fn with_main(
    alloc: Global,
    current: Option<i64>,
    listed: Vec<RefItem>,
) -> Result<Vec<RefItem>, AllocError>
    ensures { IfOk result (λ refs. refs.items ≡ with_main current listed.items) }
{
    let Some(snapshot) = current else {
        return Ok(listed);
    };
    let mut refs = listed;
    let at = before_main(refs.as_slice());
    let main = RefItem {
        name: Text::copy_of(alloc, "main")?,
        snapshot,
        tag: false,
    };
    refs.insert(at, main)?;
    Ok(refs)
}

/// How many refs at the front stand before `main`.
#[tactic(auto, unfolding(crate::specs::References::before_main))]
fn before_main(refs: &[RefItem]) -> usize
    ensures count { result ≡ before_main refs.now }
    ensures within { result ≤ length refs.now }
{
    let mut at = 0;
    let mut rest = refs;
    while let [reference, after @ ..] = rest {
        if !is_before_main(reference) {
            return at;
        }
        at += 1;
        rest = after;
    }
    at
}

fn is_before_main(reference: &RefItem) -> bool
    ensures { result ≡ is_before_main reference.now }
{
    reference.name.as_str() < "main"
}

fn lists_main(refs: &[RefItem]) -> bool
    ensures { result ≡ lists_main refs.now }
{
    refs.iter().any(is_main)
}

fn is_main(reference: &RefItem) -> bool
    ensures { result ≡ is_main reference.now }
{
    reference.name.as_str() == "main"
}

/// Whether the ref names a snapshot, and is the current one as a branch where it is `main`.
fn holds(current: Option<i64>, snapshots: &[Snapshot], reference: &RefItem) -> bool
    ensures { result ≡ holds current snapshots.now reference.now }
{
    if !has_snapshot(reference.snapshot, snapshots) {
        return false;
    }
    if !is_main(reference) {
        return true;
    }
    if reference.tag {
        return false;
    }
    is_current(current, reference.snapshot)
}

fn has_snapshot(id: i64, snapshots: &[Snapshot]) -> bool
    ensures { result ≡ has_snapshot id snapshots.now }
{
    snapshots.iter().any(|snapshot| snapshot.id == id)
}

fn is_current(current: Option<i64>, id: i64) -> bool
    ensures { result ≡ is_current current id }
{
    match current {
        Some(snapshot) => snapshot == id,
        None => false,
    }
}

#[tactic(auto, unfolding(crate::specs::References::all_hold))]
fn all_hold(
    alloc: Global,
    current: Option<i64>,
    snapshots: &[Snapshot],
    refs: &[RefItem],
) -> Result<(), MetadataFault>
    ensures answers { Answers MetadataFault.Memory (λ x. x) result (all_hold current snapshots.now refs.now) }
{
    let mut rest = refs;
    while let [reference, after @ ..] = rest {
        if !holds(current, snapshots, reference) {
            return Err(MetadataFault::Ref(Text::copy_of(alloc, reference.name.as_str())?));
        }
        rest = after;
    }
    Ok(())
}
