ghost use Rattle.std.specs.Prelude.{◌≡◌, OnOk, OnErr};
ghost use Rattle.plain_types.specs.ByteOrder.{in_byte_order};

use crate::bytes::Bytes;
use std::alloc::AllocError;

/// Sorts texts by their unsigned bytes, a front before the whole. Nothing moves where memory is
/// wanting.
#[tactic(auto, using(crate::proofs::ByteOrderLaws::byte_order))]
pub fn sort_in_byte_order(texts: &mut Vec<Bytes>) -> Result<(), AllocError>
    ensures ok { OnOk result (texts.new.items ≡ in_byte_order texts.old.items) }
    ensures err { OnErr result (texts.new.items ≡ texts.old.items) }
{
    texts.sort()?;
    Ok(())
}
