//! What holds of all metadata that is read. The law is the contract of a function that does nothing.
ghost use Rattle.std.specs.Prelude.{◌≡◌, ℕ, List as Seq, Ok};
ghost use Rattle.table_metadata.specs.Metadata.{Parts, metadata_of};
ghost use Rattle.table_metadata.specs.Sound.{IsSoundMetadata};

/// Metadata that is read has its current schema, with 1 to 256 columns whose ids and names are apart, and its default spec,
/// and its numbers have the ranges of their types.
pub fn what_is_read_is_sound()
    ensures { (bytes : Seq ℕ) (p : Parts) → metadata_of bytes ≡ Ok p → IsSoundMetadata p }
{}
