ghost use Rattle.std.specs.Prelude.{◌≡◌, ◌++◌, string_bytes, IfOk};
ghost use Rattle.std.specs.Option.{ForSome};
ghost use Rattle.plain_types.specs.Causes.{HasCause};
ghost use Rattle.store_core.specs.Answers.{unsettled_after};
ghost use Rattle.table_names.specs.Versions.{
  compressed_from,
  compressed_of,
  first_compressed,
  greatest_version,
  is_compressed,
  is_compressed_behind,
  some_version,
  version_behind,
  version_from,
  version_name,
  version_of,
  version_of_name,
  version_prefix,
};

use plain_types::digits::{after_text, has_leading_zero, number_at};
use std::alloc::{AllocError, Global};
use store_core::{Name, Store, StoreFault};

/// The greatest version of the table in a folder, and `None` where there is no version.
pub fn current_version<S: Store>(
    alloc: Global,
    store: &mut S,
    table: &str,
) -> Result<Option<u32>, StoreFault>
    ensures version { IfOk result (λ version. ForSome (S.files store.old) (λ files. version ≡ version_of table.now files)) }
    ensures files { S.files store.new ≡ S.files store.old }
    ensures reads { S.reads store.new ≡ S.reads store.old }
    ensures unsettled { S.unsettled store.new ≡ unsettled_after result (S.unsettled store.old) }
    ensures cause { HasCause StoreFault.Failed StoreFault.Memory (S.faults store.old) (S.faults store.new) result }
{
    let prefix = version_prefix(alloc, table)?;
    let names = store.list(alloc, prefix.as_str())?;
    Ok(some_version(greatest_version(prefix.as_bytes(), names.as_slice())))
}

/// The least name of a version whose metadata is compressed, by either spelling: `v<N>.gz.metadata.json` or
/// `v<N>.metadata.json.gz`.
pub fn compressed_version<S: Store>(
    alloc: Global,
    store: &mut S,
    table: &str,
) -> Result<Option<Name>, StoreFault>
    ensures name { IfOk result (λ name. ForSome (S.files store.old) (λ files. name ≡ compressed_of table.now files)) }
    ensures files { S.files store.new ≡ S.files store.old }
    ensures reads { S.reads store.new ≡ S.reads store.old }
    ensures unsettled { S.unsettled store.new ≡ unsettled_after result (S.unsettled store.old) }
    ensures cause { HasCause StoreFault.Failed StoreFault.Memory (S.faults store.old) (S.faults store.new) result }
{
    let prefix = version_prefix(alloc, table)?;
    let names = store.list(alloc, prefix.as_str())?;
    Ok(first_compressed(alloc, prefix.as_bytes(), names.as_slice())?)
}

/// The name of a version's metadata file.
pub fn version_name(alloc: Global, table: &str, version: u32) -> Result<String, AllocError>
    ensures { IfOk result (λ name. string_bytes name ≡ version_name table.now version) }
{
    format!(in alloc; "{table}/metadata/v{version}.metadata.json")
}

fn version_prefix(alloc: Global, table: &str) -> Result<String, AllocError>
    ensures { IfOk result (λ prefix. string_bytes prefix ≡ version_prefix table.now) }
{
    format!(in alloc; "{table}/metadata/v")
}

fn some_version(version: u32) -> Option<u32>
    ensures { result ≡ some_version version }
{
    if version == 0 { None } else { Some(version) }
}

#[tactic(auto, unfolding(crate::specs::Versions::greatest_version))]
fn greatest_version(prefix: &[u8], names: &[Name]) -> u32
    ensures { result ≡ greatest_version prefix.now names.now }
{
    let mut greatest = 0;
    for name in names {
        greatest = version_of_name(prefix, name.as_bytes()).max(greatest);
    }
    greatest
}

#[tactic(auto, unfolding(crate::specs::Versions::version_of_name))]
fn version_of_name(prefix: &[u8], name: &[u8]) -> u32
    ensures { result ≡ version_of_name prefix.now name.now }
{
    match after_text(prefix, name) {
        Some(behind) => version_behind(behind),
        None => 0,
    }
}

#[tactic(auto, unfolding(crate::specs::Versions::version_behind))]
fn version_behind(bytes: &[u8]) -> u32
    ensures { result ≡ version_behind bytes.now }
{
    if has_leading_zero(bytes) {
        return 0;
    }
    match number_at(bytes) {
        Some((number, rest)) => version_from(number, rest),
        None => 0,
    }
}

fn version_from(number: u64, rest: &[u8]) -> u32
    ensures { result ≡ version_from (number, rest.now) }
{
    if rest == b".metadata.json".as_slice() && number < 1 << 32 {
        number as u32
    } else {
        0
    }
}

#[tactic(auto, unfolding(crate::specs::Versions::first_compressed))]
fn first_compressed(
    alloc: Global,
    prefix: &[u8],
    names: &[Name],
) -> Result<Option<Name>, AllocError>
    ensures { IfOk result (λ name. name ≡ first_compressed prefix.now names.now) }
{
    let mut rest = names;
    while let [name, after @ ..] = rest {
        if is_compressed(prefix, name.as_bytes()) {
            return Ok(Some(Name::copy_of(alloc, name.as_str())?));
        }
        rest = after;
    }
    Ok(None)
}

fn is_compressed(prefix: &[u8], name: &[u8]) -> bool
    ensures { result ≡ is_compressed prefix.now name.now }
{
    match after_text(prefix, name) {
        Some(behind) => is_compressed_behind(behind),
        None => false,
    }
}

#[tactic(auto, unfolding(crate::specs::Versions::is_compressed_behind))]
fn is_compressed_behind(bytes: &[u8]) -> bool
    ensures { result ≡ is_compressed_behind bytes.now }
{
    match number_at(bytes) {
        Some((number, rest)) => !has_leading_zero(bytes) && compressed_from(number, rest),
        None => false,
    }
}

fn compressed_from(number: u64, rest: &[u8]) -> bool
    ensures { result ≡ compressed_from (number, rest.now) }
{
    let is_compressed = rest == b".gz.metadata.json".as_slice()
        || rest == b".metadata.json.gz".as_slice();
    is_compressed && 0 < number && number < 1 << 32
}
