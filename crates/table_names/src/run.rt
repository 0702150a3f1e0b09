ghost use Rattle.std.specs.Prelude.{◌≡◌, string_bytes, IfOk};
ghost use Rattle.std.specs.Option.{ForSome};
ghost use Rattle.plain_types.specs.Causes.{HasCause};
ghost use Rattle.store_core.specs.Answers.{unsettled_after};
ghost use Rattle.store_core.specs.Files.{names_with};
ghost use Rattle.table_names.specs.Runs.{data_prefix, metadata_prefix, run_before_hyphen, run_behind, run_of_name, runs_of, IsFreshRun};

use crate::marks::least_missing;
use plain_types::digits::{after_text, has_leading_zero, number_at};
use std::alloc::{AllocError, Global};
use store_core::{Name, Store, StoreFault};

/// The least number from 1 on that no file of the table bears.
pub fn fresh_run<S: Store>(alloc: Global, store: &mut S, table: &str) -> Result<u64, StoreFault>
    ensures run { IfOk result (λ run. ForSome (S.files store.old) (λ files. IsFreshRun table.now files run)) }
    ensures files { S.files store.new ≡ S.files store.old }
    ensures reads { S.reads store.new ≡ S.reads store.old }
    ensures unsettled { S.unsettled store.new ≡ unsettled_after result (S.unsettled store.old) }
    ensures cause { HasCause StoreFault.Failed StoreFault.Memory (S.faults store.old) (S.faults store.new) result }
{
    let data = data_prefix(alloc, table)?;
    let mut runs = runs_with(alloc, store, data.as_str())?;
    let metadata = metadata_prefix(alloc, table)?;
    let others = runs_with(alloc, store, metadata.as_str())?;
    runs.extend_from_slice(others.as_slice())?;
    Ok(least_missing(alloc, runs.as_slice())?)
}

fn data_prefix(alloc: Global, table: &str) -> Result<String, AllocError>
    ensures { IfOk result (λ prefix. string_bytes prefix ≡ data_prefix table.now) }
{
    format!(in alloc; "{table}/data/r")
}

fn metadata_prefix(alloc: Global, table: &str) -> Result<String, AllocError>
    ensures { IfOk result (λ prefix. string_bytes prefix ≡ metadata_prefix table.now) }
{
    format!(in alloc; "{table}/metadata/r")
}

// The runs of the files whose names begin so.
fn runs_with<S: Store>(alloc: Global, store: &mut S, prefix: &str) -> Result<Vec<u64>, StoreFault>
    ensures runs { IfOk result (λ runs. ForSome (S.files store.old) (λ files. runs.items ≡ runs_of prefix.now (names_with prefix.now files))) }
    ensures files { S.files store.new ≡ S.files store.old }
    ensures reads { S.reads store.new ≡ S.reads store.old }
    ensures unsettled { S.unsettled store.new ≡ unsettled_after result (S.unsettled store.old) }
    ensures cause { HasCause StoreFault.Failed StoreFault.Memory (S.faults store.old) (S.faults store.new) result }
{
    let names = store.list(alloc, prefix)?;
    Ok(runs_of(alloc, prefix.as_bytes(), names.as_slice())?)
}

fn runs_of(alloc: Global, prefix: &[u8], names: &[Name]) -> Result<Vec<u64>, AllocError>
    ensures { IfOk result (λ runs. runs.items ≡ runs_of prefix.now names.now) }
{
    let mut runs = Vec::new(alloc);
    for name in names {
        runs.push(run_of_name(prefix, name.as_bytes()))?;
    }
    Ok(runs)
}

#[tactic(auto, unfolding(crate::specs::Runs::run_of_name))]
fn run_of_name(prefix: &[u8], name: &[u8]) -> u64
    ensures { result ≡ run_of_name prefix.now name.now }
{
    match after_text(prefix, name) {
        Some(behind) => run_behind(behind),
        None => 0,
    }
}

#[tactic(auto, unfolding(crate::specs::Runs::run_behind))]
fn run_behind(bytes: &[u8]) -> u64
    ensures { result ≡ run_behind bytes.now }
{
    if has_leading_zero(bytes) {
        return 0;
    }
    match number_at(bytes) {
        Some((number, rest)) => run_before_hyphen(number, rest),
        None => 0,
    }
}

fn run_before_hyphen(number: u64, rest: &[u8]) -> u64
    ensures { result ≡ run_before_hyphen number rest.now }
{
    match rest {
        [b'-', ..] => number,
        _ => 0,
    }
}
