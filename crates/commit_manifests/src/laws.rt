//! Laws of rows. Each function says its law in its clauses, and does nothing.
ghost use Rattle.std.specs.Prelude.{◌≡◌, ◌↔◌, ◌⊎◌, ℕ, ℤ, List, Some, IsTrue};
ghost use Rattle.std.specs.List.{Any};
ghost use Rattle.std.specs.declared.cmp.Ordering.TheVariants.{Less, Greater};
ghost use Rattle.row_values.specs.declared.kind.Kind.{Kind};
ghost use Rattle.row_values.specs.declared.value.Value.{Value};
ghost use Rattle.row_values.specs.declared.partition.Spec.{Spec};
ghost use Rattle.manifest_files.specs.declared.entry.Entry.{Entry};
ghost use Rattle.manifest_files.specs.declared.manifest_row.ManifestContent.{ManifestContent};
ghost use Rattle.commit_manifests.specs.declared.commit_numbers.CommitNumbers.{CommitNumbers as Numbers};
ghost use Rattle.commit_manifests.specs.Rows.{least_number, has_null, part_at, least_at, greatest_at, summary_at, row_of};
ghost use Rattle.commit_manifests.specs.Exact.{IsLeast, IsOfLive, NoneIsLive, AreOfKind, AreCovered};
ghost use Rattle.commit_manifests.specs.Listed.{can_be_listed, is_int, is_long, has_numbers, HaveNumbers};

/// The summary of a field has NULL exactly where a live entry has. Where the others are values of one kind, none is
/// below the least or above the greatest, and these two are values of live entries.
pub fn a_summary_is_exact()
    ensures nulls { (place : ℕ) → (entries : List Entry)
        → IsTrue ((summary_at place entries).contains_null) ↔ Any (λ entry. IsTrue (has_null place entry)) entries }
    ensures least { (k : Kind) → (place : ℕ) → (entries : List Entry) → AreOfKind k place entries → AreCovered Less (least_at place entries) place entries }
    ensures greatest { (k : Kind) → (place : ℕ) → (entries : List Entry) → AreOfKind k place entries
        → AreCovered Greater (greatest_at place entries) place entries }
    ensures lower { (place : ℕ) → (entries : List Entry) → (v : Value) → least_at place entries ≡ Some v → Any (λ entry. part_at place entry ≡ Some v) entries }
    ensures upper { (place : ℕ) → (entries : List Entry) → (v : Value) → greatest_at place entries ≡ Some v
        → Any (λ entry. part_at place entry ≡ Some v) entries }
{}

/// The least sequence number is that of a live entry, none of which has a lower one, or the commit's where none is live.
pub fn a_least_number_is_exact()
    ensures least { (seq : ℤ) → (entries : List Entry) → IsLeast (least_number seq entries) entries }
    ensures held { (seq : ℤ) → (entries : List Entry) → IsOfLive (least_number seq entries) entries ⊎ (NoneIsLive entries × (least_number seq entries ≡ seq)) }
{}

/// Each count of a row is there and in the range of its type, and each bound is bytes. The other numbers are in theirs,
/// where those of the spec, the commit and the entries are.
pub fn a_row_can_be_listed()
    ensures counts { (path : List ℕ) → (size : ℕ) → (spec : Spec) → (content : ManifestContent) → (numbers : Numbers)
        → (entries : List Entry) → IsTrue (can_be_listed (row_of path size spec content numbers entries)) }
    ensures numbers { (path : List ℕ) → (size : ℕ) → (spec : Spec) → (content : ManifestContent) → (numbers : Numbers)
        → (entries : List Entry) → IsTrue (is_int spec.id) → IsTrue (is_long numbers.seq) → IsTrue (is_long numbers.snapshot)
        → HaveNumbers entries → IsTrue (has_numbers (row_of path size spec content numbers entries)) }
{}
