//! The JSON of a table's metadata after a commit.
ghost use Rattle.std.specs.Prelude.{◌≡◌, ℕ, List, IfOk, Ok};
ghost use Rattle.serde_json.specs.View.{view};
ghost use Rattle.serde_json.specs.Written.{compact_text};
ghost use Rattle.table_metadata.specs.Metadata.{IsMetadataOf, json_of, metadata_of, parts};
ghost use Rattle.metadata_writer.specs.PartsAfter.{CanFollow, parts_after};
ghost use Rattle.metadata_writer.specs.Commit.{
  after_snapshot,
  branch_data,
  log_line,
  needed_keys,
  number_keys,
  refs_after,
  snapshot_data,
  summary_data,
  time_after,
  with_branch_on,
  with_change,
  with_current,
  with_snapshot_listed,
};

use crate::edits::{
    empty_object, object_in, with_item, with_key, with_long, with_number, with_text,
};
use crate::writing::text;
use plain_types::Bytes;
use serde_json::Value;
use std::alloc::{AllocError, Global};
use table_metadata::{Metadata, Snapshot};

/// The snapshot put on the branch, by this writer at this hour of the clock.
#[tactic(auto, unfolding(crate::specs::Commit::after_snapshot))]
pub fn with_snapshot(
    alloc: Global,
    metadata: &Metadata,
    branch: &str,
    snapshot: &Snapshot,
    writer: &str,
    now_ms: i64,
) -> Result<Value, AllocError>
    ensures { IfOk result (λ v. view v ≡ after_snapshot branch.now snapshot.now writer.now now_ms (view metadata.now.json)) }
{
    let json = with_snapshot_listed(alloc, metadata.json.clone()?, snapshot)?;
    let json = with_branch_on(alloc, json, branch, snapshot)?;
    let json = with_current(alloc, json, branch, snapshot)?;
    with_change(alloc, json, writer, now_ms)
}

/// The text of the metadata after the snapshot is put on the branch.
pub fn text_with_snapshot(
    alloc: Global,
    metadata: &Metadata,
    branch: &str,
    snapshot: &Snapshot,
    writer: &str,
    now_ms: i64,
) -> Result<Bytes, AllocError>
    ensures json { IfOk result (λ text. (bytes : List ℕ) → IsMetadataOf bytes metadata.now
        → json_of text ≡ Ok (after_snapshot branch.now snapshot.now writer.now now_ms (view metadata.now.json))) }
    ensures read { IfOk result (λ text. (bytes : List ℕ) → IsMetadataOf bytes metadata.now
        → CanFollow snapshot.now now_ms (parts metadata.now)
        → metadata_of text ≡ Ok (parts_after branch.now snapshot.now now_ms (parts metadata.now))) }
    ensures compact { IfOk result (λ text. (bytes : List ℕ) → IsMetadataOf bytes metadata.now
        → text ≡ compact_text (after_snapshot branch.now snapshot.now writer.now now_ms (view metadata.now.json))) }
{
    let json = with_snapshot(alloc, metadata, branch, snapshot, writer, now_ms)?;
    text(alloc, &json)
}

#[tactic(auto, unfolding(crate::specs::Commit::with_snapshot_listed))]
fn with_snapshot_listed(
    alloc: Global,
    json: Value,
    snapshot: &Snapshot,
) -> Result<Value, AllocError>
    ensures { IfOk result (λ v. view v ≡ with_snapshot_listed snapshot.now (view json)) }
{
    let item = snapshot_json(alloc, snapshot)?;
    let json = with_item(alloc, json, "snapshots", item)?;
    with_number(alloc, json, "last-sequence-number", &snapshot.seq)
}

#[tactic(auto, unfolding(crate::specs::Commit::snapshot_data))]
fn snapshot_json(alloc: Global, snapshot: &Snapshot) -> Result<Value, AllocError>
    ensures { IfOk result (λ v. view v ≡ snapshot_data snapshot.now) }
{
    let json = needed_keys(alloc, snapshot)?;
    let json = with_long(alloc, json, "parent-snapshot-id", snapshot.parent)?;
    let json = with_long(alloc, json, "schema-id", snapshot.schema.map(i64::from))?;
    let summary = summary_json(alloc, snapshot.operation.as_str())?;
    with_key(alloc, json, "summary", summary)
}

#[tactic(auto, unfolding(crate::specs::Commit::needed_keys))]
fn needed_keys(alloc: Global, snapshot: &Snapshot) -> Result<Value, AllocError>
    ensures { IfOk result (λ v. view v ≡ needed_keys snapshot.now) }
{
    let json = number_keys(alloc, snapshot)?;
    with_text(alloc, json, "manifest-list", snapshot.list.as_str())
}

#[tactic(auto, unfolding(crate::specs::Commit::number_keys))]
fn number_keys(alloc: Global, snapshot: &Snapshot) -> Result<Value, AllocError>
    ensures { IfOk result (λ v. view v ≡ number_keys snapshot.now) }
{
    let json = with_number(alloc, empty_object(alloc), "snapshot-id", &snapshot.id)?;
    let json = with_number(alloc, json, "sequence-number", &snapshot.seq)?;
    with_number(alloc, json, "timestamp-ms", &snapshot.timestamp_ms)
}

#[tactic(auto, unfolding(crate::specs::Commit::summary_data))]
fn summary_json(alloc: Global, operation: &str) -> Result<Value, AllocError>
    ensures { IfOk result (λ v. view v ≡ summary_data operation.now) }
{
    with_text(alloc, empty_object(alloc), "operation", operation)
}

#[tactic(auto, unfolding(crate::specs::Commit::with_branch_on))]
fn with_branch_on(
    alloc: Global,
    json: Value,
    branch: &str,
    snapshot: &Snapshot,
) -> Result<Value, AllocError>
    ensures { IfOk result (λ v. view v ≡ with_branch_on branch.now snapshot.now.id (view json)) }
{
    let refs = object_in(alloc, &json, "refs")?;
    let refs = refs_after(alloc, refs, branch, snapshot)?;
    with_key(alloc, json, "refs", refs)
}

#[tactic(auto, unfolding(crate::specs::Commit::refs_after))]
fn refs_after(
    alloc: Global,
    refs: Value,
    branch: &str,
    snapshot: &Snapshot,
) -> Result<Value, AllocError>
    ensures { IfOk result (λ v. view v ≡ refs_after branch.now snapshot.now.id (view refs)) }
{
    let old = object_in(alloc, &refs, branch)?;
    let head = branch_json(alloc, old, snapshot)?;
    with_key(alloc, refs, branch, head)
}

/// The branch on the snapshot, with the other keys that it had.
#[tactic(auto, unfolding(crate::specs::Commit::branch_data))]
fn branch_json(alloc: Global, old: Value, snapshot: &Snapshot) -> Result<Value, AllocError>
    ensures { IfOk result (λ v. view v ≡ branch_data snapshot.now.id (view old)) }
{
    let json = with_number(alloc, old, "snapshot-id", &snapshot.id)?;
    with_text(alloc, json, "type", "branch")
}

/// The head of `main` is the current snapshot, and is logged.
#[tactic(auto, unfolding(crate::specs::Commit::with_current))]
fn with_current(
    alloc: Global,
    json: Value,
    branch: &str,
    snapshot: &Snapshot,
) -> Result<Value, AllocError>
    ensures { IfOk result (λ v. view v ≡ with_current branch.now snapshot.now (view json)) }
{
    if branch != "main" {
        return Ok(json);
    }
    let json = with_number(alloc, json, "current-snapshot-id", &snapshot.id)?;
    let line = log_line(alloc, snapshot)?;
    with_item(alloc, json, "snapshot-log", line)
}

#[tactic(auto, unfolding(crate::specs::Commit::log_line))]
fn log_line(alloc: Global, snapshot: &Snapshot) -> Result<Value, AllocError>
    ensures { IfOk result (λ v. view v ≡ log_line snapshot.now) }
{
    let json = with_number(alloc, empty_object(alloc), "snapshot-id", &snapshot.id)?;
    with_number(alloc, json, "timestamp-ms", &snapshot.timestamp_ms)
}

#[tactic(auto, unfolding(crate::specs::Commit::with_change))]
fn with_change(alloc: Global, json: Value, writer: &str, now_ms: i64) -> Result<Value, AllocError>
    ensures { IfOk result (λ v. view v ≡ with_change writer.now now_ms (view json)) }
{
    let time = time_after(&json, now_ms);
    let json = with_number(alloc, json, "last-updated-ms", &time)?;
    with_text(alloc, json, "dml-writer", writer)
}

/// The time of a change at this hour of the clock, which does not fall.
#[tactic(auto, unfolding(crate::specs::Commit::time_after))]
fn time_after(json: &Value, now_ms: i64) -> i64
    ensures { result ≡ time_after now_ms (view json.now) }
{
    match json.get("last-updated-ms").and_then(Value::as_i64) {
        Some(old) => now_ms.max(old),
        None => now_ms,
    }
}
