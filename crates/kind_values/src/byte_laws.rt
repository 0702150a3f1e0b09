//! Laws of numbers that are written. Each function says its law in its clauses, and does nothing.
ghost use Rattle.std.specs.Prelude.{◌≡◌, ◌+◌, ◌*◌, ◌^◌, ◌<◌, ◌≤◌, ℕ, ℤ, List, Some, length};
ghost use Rattle.std.specs.Int.{w32, w64, w128};
ghost use Rattle.std.specs.Int.RustNames.{FitsSigned};
ghost use Rattle.std.specs.List.{AllByRecursion};
ghost use Rattle.kind_values.specs.LittleEndian.{int_of, long_of, int_bytes, long_bytes};
ghost use Rattle.kind_values.specs.BigEndian.{signed_of, size_of, bytes_in, signed_bytes};

/// A number that is written is read again, in so many bytes where it fits them.
pub fn a_written_number_is_read_again()
    ensures int { (n : ℤ) → FitsSigned w32 n → int_of (int_bytes n) ≡ Some n }
    ensures long { (n : ℤ) → FitsSigned w64 n → long_of (long_bytes n) ≡ Some n }
    ensures signed { (n : ℤ) → FitsSigned w128 n → signed_of (signed_bytes n) ≡ n }
    ensures sized { (more : ℕ) → (n : ℤ) → size_of n < 128 * 256 ^ more → signed_of (bytes_in (more + 1) n) ≡ n }
{}

/// A number takes no more bytes than any that are read as it.
pub fn written_bytes_are_the_fewest()
    ensures { (bytes : List ℕ) → AllByRecursion (λ byte. byte < 256) bytes → 0 < length bytes → length (signed_bytes (signed_of bytes)) ≤ length bytes }
{}
