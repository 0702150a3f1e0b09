//! The metadata of a header.

ghost use Rattle.std.specs.Prelude.{◌≡◌, ◌++◌, ◌∷◌, [], length, IfOk, option_map};
ghost use Rattle.std.specs.Str.{bytes_eq, IsUtf8};
ghost use Rattle.avro_container.specs.Answer.{stopped};
ghost use Rattle.plain_types.specs.Answers.{Answers};
ghost use Rattle.avro_container.specs.Pairs.{value_of, key_at, pair_at, pairs_at, map_at, is_own, kept, others};

use crate::fault::{ContainerFault, head_fault};
use avro_binary::{Stop, bytes_at, count_at, text_at};
use plain_types::{Bytes as Blob, Text as Name};
use std::alloc::{AllocError, Global};

/// A key of the metadata and its value.
#[derive(Debug, Drop)]
pub struct MetaPair {
    pub key: Name,
    pub value: Blob,
}

fn is(name: &[u8], word: &[u8]) -> bool
    ensures { result ≡ bytes_eq name.now word.now }
{
    name == word
}

/// The value of a key.
#[tactic(auto, unfolding(crate::specs::Pairs::value_of))]
pub fn value_of<'a>(key: &[u8], pairs: &'a [MetaPair]) -> Option<&'a [u8]>
    ensures { option_map (λ value. value.now) result ≡ value_of key.now pairs.now }
{
    let mut rest = pairs;
    while let [first, after @ ..] = rest {
        if is(first.key.as_bytes(), key) {
            return Some(first.value.as_slice());
        }
        rest = after;
    }
    None
}

/// Why a part of the metadata stopped, as a fault of the file.
pub fn stopped(whole: usize, stop: Stop) -> ContainerFault
    ensures { result ≡ stopped whole stop }
{
    match stop {
        Stop::Memory => ContainerFault::Memory,
        Stop::At(spot) => head_fault(whole, spot),
    }
}

fn text(alloc: Global, bytes: &[u8]) -> Result<Name, AllocError>
    requires { IsUtf8 bytes.now }
    ensures { IfOk result (λ name. name ≡ bytes.now) }
{
    match str::from_utf8(bytes) {
        Ok(text) => Name::copy_of(alloc, text),
        Err(_e) => unreachable!(),
    }
}

/// A key that doesn't stand among the pairs before it.
#[tactic(auto, unfolding(crate::specs::Pairs::key_at))]
fn key_at<'a>(
    alloc: Global,
    whole: usize,
    before: &[MetaPair],
    bytes: &'a [u8],
) -> Result<(Name, &'a [u8]), ContainerFault>
    ensures { Answers ContainerFault.Memory (λ x. (x.0, x.1.now)) result (key_at whole before.now bytes.now) }
{
    let (key, rest) = match text_at(bytes) {
        Ok(found) => found,
        Err(stop) => return Err(stopped(whole, stop)),
    };
    if value_of(key, before).is_some() {
        return Err(ContainerFault::Meta(whole.saturating_sub(bytes.len())));
    }
    Ok((text(alloc, key)?, rest))
}

#[tactic(auto, unfolding(crate::specs::Pairs::pair_at))]
fn pair_at<'a>(
    alloc: Global,
    whole: usize,
    before: &[MetaPair],
    bytes: &'a [u8],
) -> Result<(MetaPair, &'a [u8]), ContainerFault>
    ensures { Answers ContainerFault.Memory (λ x. (x.0, x.1.now)) result (pair_at whole before.now bytes.now) }
{
    let (key, rest) = key_at(alloc, whole, before, bytes)?;
    let (value, rest) = match bytes_at(rest) {
        Ok(found) => found,
        Err(stop) => return Err(stopped(whole, stop)),
    };
    let value = Blob::copy_of(alloc, value)?;
    Ok((MetaPair { key, value }, rest))
}

fn pairs_at(
    alloc: Global,
    whole: usize,
    count: u64,
    before: Vec<MetaPair>,
    bytes: &[u8],
) -> Result<(Vec<MetaPair>, &[u8]), ContainerFault>
    ensures { Answers ContainerFault.Memory (λ x. (x.0.items, x.1.now)) result (pairs_at whole count before.items bytes.now) }
{
    let mut pairs = before;
    let mut rest = bytes;
    for _ in 0..count {
        let (pair, after) = pair_at(alloc, whole, pairs.as_slice(), rest)?;
        pairs.push(pair)?;
        rest = after;
    }
    Ok((pairs, rest))
}

/// The pairs of the metadata, which begins here, and the bytes after it.
pub fn map_at(
    alloc: Global,
    whole: usize,
    bytes: &[u8],
) -> Result<(Vec<MetaPair>, &[u8]), ContainerFault>
    ensures { Answers ContainerFault.Memory (λ x. (x.0.items, x.1.now)) result (map_at whole (length bytes.now) [] bytes.now) }
{
    let mut pairs = Vec::new(alloc);
    let mut rest = bytes;
    for _ in 0..bytes.len() {
        let (count, after) = match count_at(rest) {
            Ok(found) => found,
            Err(stop) => return Err(stopped(whole, stop)),
        };
        if count == 0 {
            return Ok((pairs, after));
        }
        let (more, after) = pairs_at(alloc, whole, count, pairs, after)?;
        pairs = more;
        rest = after;
    }
    Err(ContainerFault::Short(whole))
}

fn is_own(pair: &MetaPair) -> bool
    ensures { result ≡ is_own pair.now }
{
    is(pair.key.as_bytes(), b"avro.schema") || is(pair.key.as_bytes(), b"avro.codec")
}

fn copy_of(alloc: Global, pair: &MetaPair) -> Result<MetaPair, AllocError>
    ensures { IfOk result (λ copy. copy ≡ pair.now) }
{
    let key = Name::copy_of(alloc, pair.key.as_str())?;
    let value = Blob::copy_of(alloc, pair.value.as_slice())?;
    Ok(MetaPair { key, value })
}

fn with_pair(
    alloc: Global,
    found: Vec<MetaPair>,
    pair: &MetaPair,
) -> Result<Vec<MetaPair>, AllocError>
    ensures { IfOk result (λ more. more.items ≡ kept found.items pair.now) }
{
    if is_own(pair) {
        return Ok(found);
    }
    let mut found = found;
    found.push(copy_of(alloc, pair)?)?;
    Ok(found)
}

/// The pairs that the file's writer added, in order.
pub fn others(alloc: Global, pairs: &[MetaPair]) -> Result<Vec<MetaPair>, AllocError>
    ensures { IfOk result (λ found. found.items ≡ others pairs.now) }
{
    let mut found = Vec::new(alloc);
    for pair in pairs {
        let more = with_pair(alloc, found, pair)?;
        found = more;
    }
    Ok(found)
}
