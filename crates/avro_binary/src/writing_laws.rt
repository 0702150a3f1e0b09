//! Laws of what is written. Each function says its law in its clauses, and does nothing.
ghost use Rattle.std.specs.Prelude.{◌≡◌, ℕ, List, ◌++◌, ◌^◌, ◌<◌, ◌≤◌, IsTrue, Ok, length};
ghost use Rattle.avro_binary.specs.declared.datum.Datum.{Datum as Tree};
ghost use Rattle.avro_binary.specs.declared.schema.Schema.{Schema as Types};
ghost use Rattle.avro_binary.specs.Shape.{Shape};
ghost use Rattle.avro_binary.specs.SchemaText.{schema_of, schema_from};
ghost use Rattle.avro_binary.specs.SchemaData.{data_of, schema_text};
ghost use Rattle.avro_binary.specs.SchemaOnce.{has_text};
ghost use Rattle.avro_binary.specs.Reading.{datum_at};
ghost use Rattle.avro_binary.specs.Grammar.{IsNumber, Reads};
ghost use Rattle.avro_binary.specs.Spelling.{groups_of, spelling, Fits, items_take_bytes};

/// The groups of a number spell it, and no spelling of it is shorter.
pub fn numbers_are_spelled_shortest()
    ensures spells { (n : ℕ) → n < 2 ^ 64 → IsNumber (groups_of n) n }
    ensures shortest { (n : ℕ) (spelling : List ℕ) → IsNumber spelling n → length (groups_of n) ≤ length spelling }
{}

/// What is written is read again, whatever follows it. Each array's items take bytes, since a block counts
/// no more items than bytes are left.
pub fn what_is_written_is_read()
    ensures reading { (s : Shape) (d : Tree) (rest : List ℕ) → IsTrue (items_take_bytes s) → Fits s d
        → length (spelling d) < 2 ^ 63 → datum_at s (spelling d ++ rest) ≡ Ok (d, rest) }
    ensures grammar { (s : Shape) (d : Tree) (rest : List ℕ) → IsTrue (items_take_bytes s) → Fits s d
        → length (spelling d) < 2 ^ 63 → Reads s (spelling d ++ rest) d rest }
{}

/// The JSON of a schema is read as the schema, and so is its text, where no named type stands twice; and where the
/// schema was read from a text, named types that stand again too.
pub fn the_text_of_a_schema_is_read()
    ensures json { (s : Types) → IsTrue (has_text s) → schema_of (data_of s) ≡ Ok s }
    ensures text { (s : Types) → IsTrue (has_text s) → schema_from (schema_text s) ≡ Ok s }
    ensures json_again { (bytes : List ℕ) (s : Types) → schema_from bytes ≡ Ok s → schema_of (data_of s) ≡ Ok s }
    ensures text_again { (bytes : List ℕ) (s : Types) → schema_from bytes ≡ Ok s → schema_from (schema_text s) ≡ Ok s }
{}

/// A datum that is read is of the schema, so it can be written.
pub fn what_is_read_fits()
    ensures { (s : Shape) (bytes : List ℕ) (d : Tree) (rest : List ℕ) → Reads s bytes d rest → Fits s d }
{}
