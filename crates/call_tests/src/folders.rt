//! A swap and a put on a real folder, below the one for temporary files.

use plain_types::Text;
use std::alloc::{AllocError, Global};
use std::rt::{Env, Files};
use std::test::Fail;
use std::{env, fs, io, process};
use store_core::{Store, SwapAnswer};
use store_files::FolderStore;
use table_names::{Folder, Names, put_next};

/// A folder that no other run of the tests uses, with its final slash.
fn fresh<R: Files + Env + AllocGlobal>(rt: &R, of: &str, run: u32) -> io::Result<String> {
    let name = format!(in rt.alloc(); "store_files-{}-{}", of, run)?;
    let folder = env::temp_dir(rt)?.join(rt.alloc(), name.as_str())?;
    if folder.as_path().exists(rt) {
        fs::remove_dir_all(rt, folder.as_path())?;
    }
    let mut folder = folder.into_string();
    folder.push('/')?;
    Ok(folder)
}

fn swaps<R: Files + AllocGlobal + Clone + Drop>(
    alloc: Global,
    store: &mut FolderStore<R>,
    name: &str,
    wanted: SwapAnswer,
) -> bool {
    match store.swap(alloc, name, b"swapped") {
        Ok(answer) => answer == wanted,
        Err(_) => false,
    }
}

/// Whether a file was put under the first name of a session.
fn puts<R: Files + AllocGlobal + Clone + Drop>(
    alloc: Global,
    store: &mut FolderStore<R>,
    table: &str,
) -> Result<bool, AllocError> {
    let mut names = Names {
        run: 1,
        session: Text::copy_of(alloc, "load_1")?,
        next: 1,
    };
    let put = put_next(alloc, store, table, &mut names, Folder::Data, b"put");
    Ok(put.is_ok() && names.next == 2)
}

#[test]
fn a_name_is_won_once(rt: HostRuntime) -> Result<(), Fail> {
    let alloc = rt.alloc();
    let folder = fresh(&rt, "swap", process::id(rt.process()))?;
    let mut store = FolderStore::new(rt.clone()?);
    let name = format!(in alloc; "{}v1", folder)?;
    let won = swaps(alloc, &mut store, name.as_str(), SwapAnswer::Won);
    let lost = swaps(alloc, &mut store, name.as_str(), SwapAnswer::Lost);
    let put = puts(alloc, &mut store, folder.as_str())?;
    fs::remove_dir_all(&rt, folder.as_str())?;
    assert!(rt; won);
    assert!(rt; lost);
    assert!(rt; put);
    Ok(())
}
