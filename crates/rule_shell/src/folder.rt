//! The folder of a run that begins anew.

use crate::Stop;
use rl_plain::PlainText;
use std::fs::{self, File};
use std::io::ErrorKind;

/// Why a folder is not taken for a run that begins anew.
#[derive(Clone, Copy, Drop)]
pub(crate) enum FolderFault {
    /// It has something in it.
    NotEmpty,
    /// It has the file `lock` in it, which a run that has the folder makes and removes at its end.
    InUse,
}

/// Takes the folder, which has to be empty or not there, and keeps other runs that begin anew out of it by the file `lock`. The
/// path of that file.
pub(crate) fn claim_folder(rt: &HostRuntime, folder: &str) -> Result<PlainText, Stop> {
    let lock = format!(in rt.alloc(); "{folder}/lock")?;
    let lock = PlainText::from_string(lock);
    if has_entries(rt, folder)? {
        return Err(Stop::BadFolder(fault_of(rt, lock.as_str())));
    }
    if fs::create_dir_all(rt, folder).is_err() {
        return Err(Stop::Failed);
    }
    match File::create_new(rt, lock.as_str()) {
        Ok(_file) => Ok(lock),
        Err(error) if error.kind() == ErrorKind::AlreadyExists => {
            Err(Stop::BadFolder(FolderFault::InUse))
        }
        Err(_error) => Err(Stop::Failed),
    }
}

/// Lets other runs have the folder.
pub(crate) fn release_folder(rt: &HostRuntime, lock: &PlainText) {
    let _ = fs::remove_file(rt, lock.as_str());
}

// Whether the folder is there and has something in it.
fn has_entries(rt: &HostRuntime, folder: &str) -> Result<bool, Stop> {
    match fs::read_dir(rt, folder) {
        Ok(mut entries) => Ok(entries.next().is_some()),
        Err(error) if error.kind() == ErrorKind::NotFound => Ok(false),
        Err(_error) => Err(Stop::Failed),
    }
}

// Why a folder that has something in it is not taken.
fn fault_of(rt: &HostRuntime, lock: &str) -> FolderFault {
    match fs::exists(rt, lock) {
        Ok(true) => FolderFault::InUse,
        Ok(false) | Err(_) => FolderFault::NotEmpty,
    }
}
