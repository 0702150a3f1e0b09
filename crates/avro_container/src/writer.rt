ghost use Rattle.std.specs.Prelude.{◌≡◌, ℕ, List, ◌^◌, ◌<◌, IsTrue, IfOk, Ok, length};
ghost use Rattle.std.specs.List.{AllByRecursion};
ghost use Rattle.avro_binary.specs.Shape.{shape};
ghost use Rattle.avro_binary.specs.Spelling.{Fits, takes_bytes, items_take_bytes};
ghost use Rattle.avro_binary.specs.SchemaText.{schema_from};
ghost use Rattle.avro_binary.specs.SchemaData.{schema_text};
ghost use Rattle.avro_binary.specs.SchemaOnce.{has_text};
ghost use Rattle.avro_container.specs.declared.container.Container.{Container as File};
ghost use Rattle.avro_container.specs.Container.{container_of};
ghost use Rattle.avro_container.specs.ContainerText.{container_text, AreMeta};

use crate::container::Container;
use crate::writing::container_bytes;
use plain_types::Bytes as Blob;
use std::alloc::{AllocError, Global};

/// The bytes of a container: the codec is `null`, the metadata is one block in which the container's own two
/// pairs come first, and a block has at most 1,000 datums. Where there is no datum, there is no block.
pub fn write_container(alloc: Global, container: &Container) -> Result<Blob, AllocError>
    requires datums { AllByRecursion (Fits (shape container.now.schema)) container.now.datums }
    requires meta { AreMeta container.now.meta }
    ensures { IfOk result (λ bytes. bytes ≡ container_text container.now) }
{
    let bytes = container_bytes(
        alloc,
        &container.schema,
        container.meta.as_slice(),
        container.datums.as_slice(),
    )?;
    Ok(Blob::from_vec(bytes))
}

/// A container that is written is read again, where its schema is, and each datum and each item of an array takes
/// bytes: a block counts no more datums than bytes. A schema is read again where no named type stands twice in it, and
/// where it was read from a text itself.
pub fn what_is_written_is_read()
    ensures once { (c : File) → AllByRecursion (Fits (shape c.schema)) c.datums → AreMeta c.meta → IsTrue (has_text c.schema)
        → IsTrue (takes_bytes (shape c.schema)) → IsTrue (items_take_bytes (shape c.schema)) → length (container_text c) < 2 ^ 63
        → container_of (container_text c) ≡ Ok c }
    ensures again { (c : File) (text : List ℕ) → AllByRecursion (Fits (shape c.schema)) c.datums → AreMeta c.meta → schema_from text ≡ Ok c.schema
        → IsTrue (takes_bytes (shape c.schema)) → IsTrue (items_take_bytes (shape c.schema)) → length (container_text c) < 2 ^ 63
        → container_of (container_text c) ≡ Ok c }
    ensures any { (c : File) → AllByRecursion (Fits (shape c.schema)) c.datums → AreMeta c.meta → schema_from (schema_text c.schema) ≡ Ok c.schema
        → IsTrue (takes_bytes (shape c.schema)) → IsTrue (items_take_bytes (shape c.schema)) → length (container_text c) < 2 ^ 63
        → container_of (container_text c) ≡ Ok c }
{}
