//! What a commit changes, and what it leaves. Each function says its law in its clauses, and does nothing.
ghost use Rattle.std.specs.Prelude.{◌≡◌, ◌≢◌, ◌≤◌, ℕ, ℤ, pos, neg_ℤ, true, false, codes, List, [], ◌∷◌, ◌++◌, Some, Ok, IsSome};
ghost use Rattle.std.specs.Ordering.{int_eq};
ghost use Rattle.serde_json.specs.Data.{Data, array, depth};
ghost use Rattle.serde_json.specs.View.{view};
ghost use Rattle.serde_json.specs.Written.{has_float};
ghost use Rattle.serde_json.specs.Find.{get, as_object};
ghost use Rattle.table_metadata.specs.declared.snapshots.Snapshot.{Snapshot};
ghost use Rattle.table_metadata.specs.Metadata.{Parts, json_of, metadata_of, parts_of};
ghost use Rattle.table_metadata.specs.MissingKeys.{keys_stand};
ghost use Rattle.table_metadata.specs.Properties.{properties_of};
ghost use Rattle.table_metadata.specs.SchemaList.{schemas_of, specs_of};
ghost use Rattle.table_metadata.specs.Snapshots.{snapshots_of};
ghost use Rattle.table_metadata.specs.TableKeys.{current_ids_of, current_snapshot_of, plain_keys_of};
ghost use Rattle.table_metadata.specs.References.{AreInOrder, is_main_name};
ghost use Rattle.table_metadata.specs.FieldIds.{field_ids_fit, has_column_above, has_field_above};
ghost use Rattle.iceberg_schema.specs.SoundSchema.{IsSoundSchema};
ghost use Rattle.iceberg_schema.specs.SpecJson.{spec_of};
ghost use Rattle.table_metadata.specs.declared.properties.Properties.{Properties};
ghost use Rattle.row_values.specs.declared.partition.Spec.{Spec};
ghost use Rattle.row_values.specs.declared.schema.Column.{Column};
ghost use Rattle.row_values.specs.declared.schema.TableSchema.{TableSchema};
ghost use Rattle.metadata_writer.specs.Fitting.{Fits};
ghost use Rattle.iceberg_schema.specs.Widths.{IsLong};
ghost use Rattle.metadata_writer.specs.Commit.{after_snapshot, and_item, branch_data, items_in, log_line, object_in, snapshot_data, time_after};
ghost use Rattle.metadata_writer.specs.Kept.{IsKept};
ghost use Rattle.metadata_writer.specs.NewTable.{Made, IsMadeOf, first_parts, first_version, spec_data};
ghost use Rattle.metadata_writer.specs.PartsAfter.{CanFollow, parts_after};
ghost use Rattle.metadata_writer.specs.Writable.{IsWritable};

/// The keys that a commit doesn't write stay as they were, read or not.
pub fn other_keys_stay()
    ensures { (branch : List ℕ) (s : Snapshot) (writer : List ℕ) (now : ℤ) (d : Data) (key : List ℕ) → IsKept branch key
        → get key (after_snapshot branch s writer now d) ≡ get key d }
{}

/// The snapshots are the old ones in their order, and the new one.
pub fn old_snapshots_stay()
    ensures { (branch : List ℕ) (s : Snapshot) (writer : List ℕ) (now : ℤ) (d : Data) → IsSome (as_object d)
        → get (codes "snapshots") (after_snapshot branch s writer now d) ≡ Some (array (and_item (snapshot_data s)
        (items_in (codes "snapshots") d))) }
{}

/// Every other ref stays, and the branch is on the snapshot.
pub fn other_refs_stay()
    ensures others { (branch : List ℕ) (s : Snapshot) (writer : List ℕ) (now : ℤ) (d : Data) (name : List ℕ)
        → IsSome (as_object d) → name ≢ branch → get name (object_in (codes "refs")
        (after_snapshot branch s writer now d)) ≡ get name (object_in (codes "refs") d) }
    ensures its { (branch : List ℕ) (s : Snapshot) (writer : List ℕ) (now : ℤ) (d : Data) → IsSome (as_object d)
        → get branch (object_in (codes "refs")
        (after_snapshot branch s writer now d)) ≡ Some (branch_data s.id (object_in branch (object_in (codes "refs") d))) }
{}

/// The schemas, the specs, the properties and the current ids are read as before.
pub fn the_schema_stays()
    ensures schemas { (branch : List ℕ) (s : Snapshot) (writer : List ℕ) (now : ℤ) (d : Data)
        → schemas_of (after_snapshot branch s writer now d) ≡ schemas_of d }
    ensures specs { (branch : List ℕ) (s : Snapshot) (writer : List ℕ) (now : ℤ) (d : Data) (id : ℤ) (schemas : List TableSchema)
        → specs_of id schemas (after_snapshot branch s writer now d) ≡ specs_of id schemas d }
    ensures properties { (branch : List ℕ) (s : Snapshot) (writer : List ℕ) (now : ℤ) (d : Data)
        → properties_of (after_snapshot branch s writer now d) ≡ properties_of d }
    ensures ids { (branch : List ℕ) (s : Snapshot) (writer : List ℕ) (now : ℤ) (d : Data)
        → current_ids_of (after_snapshot branch s writer now d) ≡ current_ids_of d }
{}

/// The snapshots are read as before, and the new one last.
pub fn the_snapshot_is_read()
    ensures { (branch : List ℕ) (s : Snapshot) (writer : List ℕ) (now : ℤ) (d : Data) (all : List Snapshot) → IsSome (as_object d)
        → Fits s → snapshots_of d ≡ Ok all → snapshots_of (after_snapshot branch s writer now d) ≡ Ok (all ++ s ∷ []) }
{}

/// What is committed onto metadata that can be written can be written.
pub fn a_commit_can_be_written()
    ensures { (branch : List ℕ) (s : Snapshot) (writer : List ℕ) (now : ℤ) (d : Data) → IsWritable d → IsWritable (after_snapshot branch s writer now d) }
{}

/// The location and the last column id are read as before, and the number and the time as they were written.
pub fn the_number_and_the_time_are_read()
    ensures { (branch : List ℕ) (s : Snapshot) (writer : List ℕ) (now : ℤ) (d : Data) (location : List ℕ)
        (old_seq old_time column : ℤ) → IsSome (as_object d) → IsLong s.seq → IsLong (time_after now d)
        → plain_keys_of d ≡ Ok (record { location = location; last_sequence = old_seq; last_updated_ms = old_time; last_column = column })
        → plain_keys_of (after_snapshot branch s writer now d) ≡ Ok (record { location = location; last_sequence = s.seq; last_updated_ms = time_after now d; last_column = column }) }
{}

/// After a commit on `main` its snapshot is the current one, and the log has the old lines and one of it.
pub fn the_head_of_main_is_current()
    ensures current { (branch : List ℕ) (s : Snapshot) (writer : List ℕ) (now : ℤ) (d : Data) → is_main_name branch ≡ true
        → IsSome (as_object d) → IsLong s.id → int_eq s.id (neg_ℤ (pos 1)) ≡ false
        → current_snapshot_of (after_snapshot branch s writer now d) ≡ Ok (Some s.id) }
    ensures log { (branch : List ℕ) (s : Snapshot) (writer : List ℕ) (now : ℤ) (d : Data) → is_main_name branch ≡ true
        → IsSome (as_object d) → get (codes "snapshot-log")
        (after_snapshot branch s writer now d) ≡ Some (array (and_item (log_line s) (items_in (codes "snapshot-log") d))) }
{}

/// A commit on another branch leaves the current snapshot.
pub fn other_branches_leave_the_current_snapshot()
    ensures { (branch : List ℕ) (s : Snapshot) (writer : List ℕ) (now : ℤ) (d : Data) → is_main_name branch ≡ false
        → current_snapshot_of (after_snapshot branch s writer now d) ≡ current_snapshot_of d }
{}

/// What is read after a commit: the parts as they were, with the snapshot, its number, the time and the branch. Of text the
/// refs are in order, so there the snapshot alone has to be a new one.
pub fn a_commit_is_read()
    ensures data { (branch : List ℕ) (s : Snapshot) (writer : List ℕ) (now : ℤ) (d : Data) (p : Parts) → AreInOrder p.refs
        → CanFollow s now p → parts_of d ≡ Ok p
        → parts_of (after_snapshot branch s writer now d) ≡ Ok (parts_after branch s now p) }
    ensures text { (bytes text branch : List ℕ) (s : Snapshot) (writer : List ℕ) (now : ℤ) (d : Data) (p : Parts)
        → CanFollow s now p → json_of bytes ≡ Ok d → metadata_of bytes ≡ Ok p
        → json_of text ≡ Ok (after_snapshot branch s writer now d) → metadata_of text ≡ Ok (parts_after branch s now p) }
    ensures order { (bytes : List ℕ) (p : Parts) → metadata_of bytes ≡ Ok p → AreInOrder p.refs }
{}

/// The first version of a table can be written where its parts have no float and nest less deep than a text may.
pub fn the_first_version_can_be_written()
    ensures { (t : Made) → has_float (t.schema) ≡ false → depth (t.schema) ≤ 125 → has_float (t.fields) ≡ false
        → depth (t.fields) ≤ 124 → has_float (t.properties) ≡ false → depth (t.properties) ≤ 126 → IsWritable (first_version t) }
{}

/// What is read of the first version: the schema, the spec and the properties that its JSON reads as, and no snapshot. A
/// sound schema needs only that no id is above the last one, and the fields of a spec that was read elsewhere are read as
/// they were there, under the id 0.
pub fn a_first_version_is_read()
    ensures data { (schema : TableSchema) (spec : Spec) (properties : Properties) (t : Made) → IsMadeOf schema spec properties t
        → parts_of (first_version t) ≡ Ok (first_parts schema spec properties t) }
    ensures text { (text : List ℕ) (schema : TableSchema) (spec : Spec) (properties : Properties) (t : Made)
        → IsMadeOf schema spec properties t → json_of text ≡ Ok (first_version t)
        → metadata_of text ≡ Ok (first_parts schema spec properties t) }
    ensures ids { (last_column last_partition : ℤ) (schema : TableSchema) (spec : Spec) → IsSoundSchema schema
        → has_column_above last_column (schema ∷ []) ≡ false → has_field_above last_partition (spec ∷ []) ≡ false
        → field_ids_fit last_column last_partition (schema ∷ []) (spec ∷ []) ≡ Ok tt }
    ensures spec { (columns : List Column) (d fields : Data) (spec : Spec) → spec_of columns d ≡ Ok spec
        → get (codes "fields") d ≡ Some fields
        → spec_of columns (spec_data fields) ≡ Ok (record { id = pos 0; fields = spec.fields }) }
{}

/// No needed key is absent after a commit, if none was before.
pub fn the_needed_keys_stay()
    ensures { (branch : List ℕ) (s : Snapshot) (writer : List ℕ) (now : ℤ) (d : Data) → IsSome (as_object d)
        → keys_stand d ≡ Ok tt → keys_stand (after_snapshot branch s writer now d) ≡ Ok tt }
{}
