// Files of a real folder.
use crate::folders::{folder_of, note_folders, sync_folder, sync_folders};
use std::alloc::Global;
use std::fs::{File, OpenFile};
use std::io::{ErrorKind, Read, Write};
use std::rt::Files;
use std::{fs, io};
use store_core::{Name, SwapAnswer};

/// How many hidden names of one version are tried.
const HIDDEN_NAMES: u32 = 1_000;

/// What a look at a name finds.
#[derive(Drop)]
pub(crate) enum Reading {
    Found(Vec<u8>),
    Missing,
    /// Something else than a regular file stands there.
    NoFile,
    TooLong,
}

/// Whether an error tells that there is no such name: no file, a part of the path that is no folder, a part that is too
/// long, a NUL, or a link that leads nowhere.
pub(crate) fn is_absent(error: &io::Error) -> bool {
    matches!(
        error.kind(),
        ErrorKind::NotFound
            | ErrorKind::NotADirectory
            | ErrorKind::InvalidFilename
            | ErrorKind::InvalidInput
            | ErrorKind::FilesystemLoop
    )
}

/// Whether a regular file stands under the name, links followed.
fn is_file<R: Files>(rt: &R, name: &str) -> io::Result<bool> {
    match fs::metadata(rt, name) {
        Ok(metadata) => Ok(metadata.is_file()),
        Err(error) if is_absent(&error) => Ok(false),
        Err(error) => Err(error),
    }
}

/// The names of regular files that begin with a prefix, in byte order, but for hidden ones and those that are no UTF-8. A
/// folder that isn't there has none.
pub(crate) fn names_with<R: Files + AllocGlobal + Clone + Drop>(
    rt: &R,
    alloc: Global,
    prefix: &str,
) -> io::Result<Vec<Name>> {
    let folder = folder_of(prefix);
    let mut names = Vec::new(alloc);
    let entries = match fs::read_dir(rt, if folder.is_empty() { "." } else { folder }) {
        Ok(entries) => entries,
        Err(error) if is_absent(&error) => return Ok(names),
        Err(error) => return Err(error),
    };
    for entry in entries {
        let entry = match entry {
            Ok(entry) => entry,
            Err(error) if error.kind() == ErrorKind::InvalidFilename => continue,
            Err(error) => return Err(error),
        };
        let last = entry.file_name();
        let name = format!(in alloc; "{folder}{last}")?;
        if !last.starts_with('.') && name.starts_with(prefix) && is_file(rt, name.as_str())? {
            names.push(Name::from_string(name))?;
        }
    }
    names.sort()?;
    Ok(names)
}

/// The bytes of a regular file, if it has at most so many. No more than one byte past them is read.
pub(crate) fn read<R: Files + AllocGlobal>(rt: &R, name: &str, most: u64) -> io::Result<Reading> {
    match fs::metadata(rt, name) {
        Ok(metadata) if metadata.is_file() => {}
        Ok(_) => return Ok(Reading::NoFile),
        Err(error) if is_absent(&error) => return Ok(Reading::Missing),
        Err(error) => return Err(error),
    }
    let file = match File::open(rt, name) {
        Ok(file) => file,
        Err(error) if is_absent(&error) => return Ok(Reading::Missing),
        Err(error) => return Err(error),
    };
    let metadata = file.metadata()?;
    if !metadata.is_file() {
        return Ok(Reading::NoFile);
    }
    if metadata.len() > most {
        return Ok(Reading::TooLong);
    }
    let mut bytes = Vec::new(rt.alloc());
    file.take(most.saturating_add(1)).read_to_end(&mut bytes)?;
    Ok(if bytes.len() as u64 > most {
        Reading::TooLong
    } else {
        Reading::Found(bytes)
    })
}

/// Makes a file under a new name, with the folders that it needs, and brings its bytes to the disk. Where that fails the file
/// is removed, since nobody knows of it. The folders that have a new name are noted before anything is written.
pub(crate) fn put<R: Files>(
    rt: &R,
    alloc: Global,
    name: &str,
    bytes: &[u8],
    noted: &mut Vec<String>,
) -> io::Result<()> {
    note_folders(alloc, name, noted)?;
    fs::create_dir_all(rt, folder_of(name))?;
    let mut file = File::create_new(rt, name)?;
    let written = write(&mut file, bytes);
    if written.is_err() {
        fs::remove_file(rt, name)?;
    }
    written
}

fn write<F: Write + OpenFile>(file: &mut F, bytes: &[u8]) -> io::Result<()> {
    file.write_all(bytes)?;
    file.sync_all()
}

/// Makes a file under a name that only one can make: its bytes come to the disk under a hidden name first, and with them the
/// folders of all that was put before, and then one link gives the file its name, whole. From there on the file is never
/// taken back, since others may have seen it.
pub(crate) fn swap<R: Files>(
    rt: &R,
    alloc: Global,
    name: &str,
    bytes: &[u8],
    noted: &mut Vec<String>,
) -> io::Result<SwapAnswer> {
    note_folders(alloc, name, noted)?;
    fs::create_dir_all(rt, folder_of(name))?;
    let (hidden, mut file) = create_hidden(rt, alloc, name)?;
    let prepared = prepare(rt, &mut file, bytes, noted);
    let linked = match prepared {
        Ok(()) => link(rt, hidden.as_str(), name),
        Err(error) => Err(error),
    };
    // What is left of a hidden name is in nobody's way.
    let _removed = fs::remove_file(rt, hidden.as_str());
    match linked? {
        SwapAnswer::Lost => Ok(SwapAnswer::Lost),
        SwapAnswer::Won => match sync_folder(rt, folder_of(name)) {
            Ok(()) => Ok(SwapAnswer::Won),
            // No want of memory any more, since the name is there.
            Err(_) => Err(io::Error::from(ErrorKind::Other)),
        },
    }
}

/// A new file under the first hidden name beside the name that is free.
fn create_hidden<R: Files>(rt: &R, alloc: Global, name: &str) -> io::Result<(String, R::File)> {
    let folder = folder_of(name);
    let last = name.strip_prefix(folder).unwrap_or(name);
    for number in 0..HIDDEN_NAMES {
        let hidden = format!(in alloc; "{folder}.{last}.{number}")?;
        match File::create_new(rt, hidden.as_str()) {
            Ok(file) => return Ok((hidden, file)),
            Err(error) if error.kind() == ErrorKind::AlreadyExists => {}
            Err(error) => return Err(error),
        }
    }
    Err(io::Error::from(ErrorKind::ResourceBusy))
}

/// Brings the bytes of a version to the disk, and the folders of all files that were put before it.
fn prepare<R: Files, F: Write + OpenFile>(
    rt: &R,
    file: &mut F,
    bytes: &[u8],
    noted: &mut Vec<String>,
) -> io::Result<()> {
    write(file, bytes)?;
    sync_folders(rt, noted.as_slice())?;
    noted.clear();
    Ok(())
}

/// Gives the file its name. Another regular file under the name has won; anything else there is a failure.
fn link<R: Files>(rt: &R, hidden: &str, name: &str) -> io::Result<SwapAnswer> {
    match fs::hard_link(rt, hidden, name) {
        Ok(()) => Ok(SwapAnswer::Won),
        Err(error) if error.kind() == ErrorKind::AlreadyExists => {
            if is_file(rt, name)? {
                Ok(SwapAnswer::Lost)
            } else {
                Err(error)
            }
        }
        Err(error) => Err(error),
    }
}
