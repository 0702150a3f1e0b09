ghost use Rattle.std.specs.Prelude.{◌≡◌, ◌≤◌, ◌↔◌, List, ℕ, length, drop, IfOk, IfErr, MatchResult, Ok, Err};
ghost use Rattle.avro_binary.specs.declared.datum.Datum.{Datum as Tree};
ghost use Rattle.avro_binary.specs.declared.fault.Spot.{Spot as At};
ghost use Rattle.avro_binary.specs.Shape.{Shape, shape};
ghost use Rattle.avro_binary.specs.Reading.{datum_at};
ghost use Rattle.avro_binary.specs.Grammar.{Reads, Fails};
ghost use Rattle.avro_binary.specs.Fault.{fault_of, fault_from, fault_at, AnswersDatum, MayFail};

use crate::datum::Datum;
use crate::fault::{DatumFault, FaultKind, Spot, Stop};
use crate::reading::datum_at;
use crate::schema::Schema;
use std::alloc::Global;

fn fault_at(kind: FaultKind, place: usize) -> DatumFault
    ensures { result ≡ fault_at kind place }
{
    match kind {
        FaultKind::Short => DatumFault::Short(place),
        FaultKind::Long => DatumFault::Long(place),
        FaultKind::Branch => DatumFault::Branch(place),
        FaultKind::Text => DatumFault::Text(place),
        FaultKind::Size => DatumFault::Size(place),
    }
}

/// A fault in a text of this length, by its place.
pub fn fault_of(whole: usize, spot: Spot) -> DatumFault
    ensures { result ≡ fault_of whole spot }
{
    fault_at(spot.kind, whole.saturating_sub(spot.left))
}

fn fault_from(whole: usize, stop: Stop) -> DatumFault
    ensures { result ≡ fault_from whole stop }
{
    match stop {
        Stop::Memory => DatumFault::Memory,
        Stop::At(spot) => fault_of(whole, spot),
    }
}

fn answer(alloc: Global, schema: &Schema, bytes: &[u8]) -> Result<(Datum, usize), DatumFault>
    ensures { AnswersDatum result bytes.now (datum_at (shape schema.now) bytes.now) }
{
    match datum_at(alloc, schema, bytes) {
        Ok((datum, rest)) => Ok((datum, bytes.len() - rest.len())),
        Err(stop) => Err(fault_from(bytes.len(), stop)),
    }
}

/// The datum at the front of the bytes, and how many bytes it takes. What follows isn't looked at, but
/// that a block counts no more items than bytes are left in all.
///
/// A longer spelling of a number than is needed is read. The size in bytes of a block isn't compared.
pub fn read_datum(
    alloc: Global,
    schema: &Schema,
    bytes: &[u8],
) -> Result<(Datum, usize), DatumFault>
    // What is found is in the grammar.
    ensures found { IfOk result (λ x. (x.1 ≤ length bytes.now) × Reads (shape schema.now) bytes.now x.0 (drop x.1 bytes.now)) }
    // What is in the grammar is found, unless memory runs out.
    ensures only { (d : Tree) (rest : List ℕ) → Reads (shape schema.now) bytes.now d rest →
        MatchResult result (λ x. (x.0 ≡ d) × (drop x.1 bytes.now ≡ rest)) (λ f. f ≡ DatumFault.Memory) }
    // A fault is the first one, at its place.
    ensures fails { IfErr result (λ f. MayFail (shape schema.now) bytes.now f) }
    // Which answer it is, as a function computes it.
    ensures exact { AnswersDatum result bytes.now (datum_at (shape schema.now) bytes.now) }
{
    answer(alloc, schema, bytes)
}

/// The grammar and the reading function agree: bytes have at most one datum at their front, or one first
/// fault, and never both.
pub fn one_answer()
    ensures reads { (s : Shape) (bytes : List ℕ) (d : Tree) (rest : List ℕ) → Reads s bytes d rest ↔ (datum_at s bytes ≡ Ok (d, rest)) }
    ensures fails { (s : Shape) (bytes : List ℕ) (f : At) → Fails s bytes f ↔ (datum_at s bytes ≡ Err f) }
{}
