// The folders that files lie in, and how their names come to the disk.
use std::alloc::{AllocError, Global};
use std::fs::{File, OpenFile};
use std::io;
use std::io::ErrorKind;
use std::rt::Files;

/// The folder that a name lies in, with its final slash, or the empty text.
pub(crate) fn folder_of(name: &str) -> &str {
    match name.rfind('/') {
        Some(slash) => match name.get(..slash + 1) {
            Some(folder) => folder,
            None => "",
        },
        None => "",
    }
}

/// Notes the folder of a name and those above it, up to the working folder or the root, each once.
pub(crate) fn note_folders(
    alloc: Global,
    name: &str,
    noted: &mut Vec<String>,
) -> Result<(), AllocError> {
    if !name.starts_with('/') {
        note(alloc, ".", noted)?;
    }
    for (slash, _) in name.match_indices('/') {
        match name.get(..slash) {
            Some("") => note(alloc, "/", noted)?,
            Some(folder) => note(alloc, folder, noted)?,
            None => {}
        }
    }
    Ok(())
}

fn note(alloc: Global, folder: &str, noted: &mut Vec<String>) -> Result<(), AllocError> {
    if noted.iter().any(|one| one.as_str() == folder) {
        return Ok(());
    }
    noted.push(String::from_str(alloc, folder)?)?;
    Ok(())
}

/// Brings the names in each of the folders to the disk.
pub(crate) fn sync_folders<R: Files>(rt: &R, folders: &[String]) -> io::Result<()> {
    for folder in folders {
        sync_folder(rt, folder.as_str())?;
    }
    Ok(())
}

/// Brings the names in a folder to the disk. One that may not be read lies above the table, whose folders are listed, and is
/// passed over.
pub(crate) fn sync_folder<R: Files>(rt: &R, folder: &str) -> io::Result<()> {
    match File::open(rt, if folder.is_empty() { "." } else { folder }) {
        Ok(file) => file.sync_all(),
        Err(error) if error.kind() == ErrorKind::PermissionDenied => Ok(()),
        Err(error) => Err(error),
    }
}
