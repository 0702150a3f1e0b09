ghost use Rattle.std.specs.Prelude.{◌≡◌, ◌↔◌, List as Seq, ℕ, [], length, Ok, IfOk, MatchResult};
ghost use Rattle.avro_binary.specs.declared.datum.Datum.{Datum as Tree};
ghost use Rattle.avro_binary.specs.declared.schema.Schema.{Schema as Types};
ghost use Rattle.avro_binary.specs.Shape.{shape};
ghost use Rattle.plain_types.specs.Answers.{Answers};
ghost use Rattle.avro_container.specs.Container.{blocks_at, container_of};
ghost use Rattle.avro_container.specs.Grammar.{ContainerOf};

use crate::block::next_block;
use crate::fault::ContainerFault;
use crate::header::{Header, read_header};
use crate::pairs::MetaPair;
use avro_binary::{Datum, Schema};
use plain_types::List;
use std::alloc::Global;

/// A container as a whole.
#[derive(Debug, Drop)]
pub struct Container {
    pub schema: Schema,
    /// The pairs of the metadata other than the schema and the codec, in order.
    pub meta: List<MetaPair>,
    pub datums: List<Datum>,
}

fn blocks_at(
    alloc: Global,
    schema: &Schema,
    sync: &[u8],
    whole: usize,
    bytes: &[u8],
) -> Result<Vec<Datum>, ContainerFault>
    ensures { Answers ContainerFault.Memory (λ x. x.items) result (blocks_at (shape schema.now) sync.now whole (length bytes.now) 0 [] bytes.now) }
{
    let mut all = Vec::new(alloc);
    let mut rest = bytes;
    for block in 0..bytes.len() {
        if rest.is_empty() {
            return Ok(all);
        }
        let (mut datums, after) = next_block(alloc, schema, sync, whole, block, rest)?;
        all.append(&mut datums)?;
        rest = after;
    }
    if rest.is_empty() {
        Ok(all)
    } else {
        Err(ContainerFault::Count(bytes.len()))
    }
}

#[tactic(auto, unfolding(crate::specs::Container::container_of))]
fn container_of(alloc: Global, bytes: &[u8]) -> Result<Container, ContainerFault>
    ensures { Answers ContainerFault.Memory (λ x. x) result (container_of bytes.now) }
{
    let (header, rest) = read_header(alloc, bytes)?;
    let Header { schema, meta, sync } = header;
    let datums = blocks_at(alloc, &schema, sync.as_slice(), bytes.len(), rest)?;
    Ok(Container {
        schema,
        meta,
        datums: List::from_vec(datums),
    })
}

/// The container that the bytes are. Faults come in the order of `ContainerFault`, the header's first and then
/// block by block; in a block one of its count, size or data comes before one of its datums.
pub fn read_container(alloc: Global, bytes: &[u8]) -> Result<Container, ContainerFault>
    // What is found is in the grammar.
    ensures found { IfOk result (λ c. ContainerOf bytes.now c.schema c.meta c.datums) }
    // What is in the grammar is found, unless memory runs out.
    ensures only { (schema : Types) (meta : Seq MetaPair) (datums : Seq Tree) → ContainerOf bytes.now schema meta datums →
        MatchResult result (λ c. (c.schema ≡ schema) × (c.meta ≡ meta) × (c.datums ≡ datums)) (λ f. f ≡ ContainerFault.Memory) }
    // Which answer it is, as a function computes it.
    ensures exact { Answers ContainerFault.Memory (λ x. x) result (container_of bytes.now) }
{
    container_of(alloc, bytes)
}

/// The grammar and the reading function agree: bytes are at most one container.
pub fn one_container()
    ensures { (bytes : Seq ℕ) (schema : Types) (meta : Seq MetaPair) (datums : Seq Tree) →
        ContainerOf bytes schema meta datums ↔ (container_of bytes ≡ Ok (record { schema = schema; meta = meta; datums = datums })) }
{}
