//! Puts under the next names of a table's files.
ghost use Rattle.std.specs.Prelude.{◌≡◌, ◌<◌, ◌+◌, ◌^◌, string_bytes, option_map, IfOk, OnOk};
ghost use Rattle.std.specs.Option.{ForSome};
ghost use Rattle.store_core.specs.Files.{with_file};
ghost use Rattle.store_core.specs.Moves.{Moves};
ghost use Rattle.table_names.specs.Drawing.{Draws, name_in_folder};
ghost use Rattle.table_names.specs.FileNames.{NoneFrom};

use crate::names::Names;
use std::alloc::{AllocError, Global};
use store_core::{Store, StoreFault};

/// A folder of a table's folder.
#[derive(Clone, Copy, Debug, PartialEq, Eq)]
pub enum Folder {
    /// Files of data and of deletes.
    Data,
    /// Manifests and manifest lists.
    Metadata,
}

// The next name of a folder. Its number is not drawn again.
fn next_name(
    alloc: Global,
    table: &str,
    names: &mut Names,
    folder: Folder,
) -> Result<String, AllocError>
    requires { names.old.next + 1 < 2 ^ 128 }
    ensures name { IfOk result (λ name. string_bytes name ≡ name_in_folder folder table.now names.old names.old.next) }
    ensures drawn { names.new ≡ record names.old { next = names.old.next + 1 } }
{
    match folder {
        Folder::Data => names.data_name(alloc, table),
        Folder::Metadata => names.metadata_name(alloc, table),
    }
}

/// Puts bytes under the next name of a folder.
pub fn put_next<S: Store>(
    alloc: Global,
    store: &mut S,
    table: &str,
    names: &mut Names,
    folder: Folder,
    bytes: &[u8],
) -> Result<(), StoreFault>
    requires free { ForSome (S.files store.old) (NoneFrom table.now names.old.run names.old.session names.old.next) }
    requires room { names.old.next + 1 < 2 ^ 128 }
    ensures files { OnOk result (S.files store.new ≡ option_map (with_file (name_in_folder folder table.now names.old names.old.next) bytes.now)
        (S.files store.old)) }
    ensures drawn { names.new ≡ record names.old { next = names.old.next + 1 } }
    ensures draws { Draws 1 (name_in_folder folder table.now names.old) table.now names.old names.new (S.files store.old) (S.files store.new) }
    ensures moves { Moves StoreFault.Failed StoreFault.Memory (S.files store.old) (S.files store.new) (S.faults store.old)
        (S.faults store.new) (S.unsettled store.new) result }
    ensures reads { S.reads store.new ≡ S.reads store.old }
{
    let name = next_name(alloc, table, names, folder)?;
    store.put(alloc, name.as_str(), bytes)
}
