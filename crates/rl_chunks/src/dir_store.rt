//! A store in a folder.
ghost use Rattle.std.specs.Prelude.{◌≡◌, Err};
ghost use Rattle.rl_chunks.specs.StoreState.{faults_after};

use crate::history::History;
use crate::store::{Store, StoreFault};
use rl_plain::{PlainList, PlainText};
use std::fs::{self, Files};
use std::io::{self, ErrorKind, Read};
use std::mem;
use std::snapshot::Snapshot;

/// Keeps each number's bytes in one file of a folder, whose name is the number. A new file is written beside and renamed,
/// so a crash in the middle leaves the old file or none. It is not honest: nothing is claimed of what files hold.
#[derive(Drop)]
pub struct DirStore<R> {
    rt: R,
    folder: PlainText,
    reads: u64,
    faults: u64,
    history: Snapshot<History>,
}

// Why the device refused. It is counted unless memory ran out.
fn refusal(faults: &mut u64, error: &io::Error) -> StoreFault
    ensures { faults.new ≡ faults_after {A = Unit} (Err result) faults.old }
{
    if error.kind() == ErrorKind::OutOfMemory {
        return StoreFault::Memory;
    }
    *faults = faults.saturating_add(1);
    StoreFault::Fault
}

// The name of a number's file.
fn file_name(folder: &PlainText, number: u64) -> io::Result<String> {
    Ok(format!(in folder.allocator(); "{folder}/{number}")?)
}

// Writes the bytes to a file beside, and renames it.
fn replace_file(files: &impl Files, beside: &str, name: &str, bytes: &[u8]) -> io::Result<()> {
    fs::write(files, beside, bytes)?;
    fs::rename(files, beside, name)
}

// Writes a number's file. If it cannot be written and renamed, nothing of it stays.
fn write_file(files: &impl Files, folder: &PlainText, number: u64, bytes: &[u8]) -> io::Result<()> {
    let name = file_name(folder, number)?;
    let beside = format!(in folder.allocator(); "{name}.new")?;
    let written = replace_file(files, beside.as_str(), name.as_str(), bytes);
    if written.is_err() {
        let _ = fs::remove_file(files, beside.as_str());
    }
    written
}

// The bytes of a number's file, if there is one.
fn read_file(files: &impl Files, folder: &PlainText, number: u64) -> io::Result<Option<Vec<u8>>> {
    let name = file_name(folder, number)?;
    let mut bytes = Vec::new(folder.allocator());
    match fs::open(files, name.as_str()) {
        Ok(mut file) => {
            file.read_to_end(&mut bytes)?;
            Ok(Some(bytes))
        }
        Err(error) if error.kind() == ErrorKind::NotFound => Ok(None),
        Err(error) => Err(error),
    }
}

// Takes away a number's file, if there is one.
fn remove_file(files: &impl Files, folder: &PlainText, number: u64) -> io::Result<()> {
    let name = file_name(folder, number)?;
    match fs::remove_file(files, name.as_str()) {
        Err(error) if error.kind() == ErrorKind::NotFound => Ok(()),
        other => other,
    }
}

impl<R> DirStore<R> {
    ghost use Rattle.std.specs.FinMap as map;
    ghost use Rattle.rl_chunks.specs.DirState.{blobs_in};

    /// A store over a folder that is there.
    pub fn new(rt: R, folder: PlainText) -> Self
        ensures blobs { blobs_in result.history.value ≡ map.empty }
        ensures reads { result.reads ≡ 0 }
        ensures faults { result.faults ≡ 0 }
        ensures folder { result.folder ≡ folder }
    {
        DirStore {
            rt,
            folder,
            reads: 0,
            faults: 0,
            history: Snapshot::of(&History::Nothing),
        }
    }

    /// How often it was read, counted from the greatest number to 0 again.
    pub fn reads(&self) -> u64
        ensures { result ≡ self.now.reads }
    {
        self.reads
    }

    /// How often the device failed, up to the greatest number.
    pub fn faults(&self) -> u64
        ensures { result ≡ self.now.faults }
    {
        self.faults
    }
}

impl<R: Files + Drop> Store for DirStore<R> {
    ghost use Rattle.rl_chunks.specs.DirState.{dir_seen};

    ghost seen = { λ store. dir_seen store.history.value store.reads store.faults };

    fn put(&mut self, number: u64, bytes: Vec<u8>) -> Result<(), StoreFault> {
        let written = write_file(&self.rt, &self.folder, number, &bytes);
        if let Err(error) = written {
            return Err(refusal(&mut self.faults, &error));
        }
        let bytes = PlainList::from_vec(bytes);
        let before = mem::replace(&mut self.history, Snapshot::of(&History::Nothing));
        self.history = Snapshot::of(&History::Put {
            number,
            bytes: Snapshot::of(&bytes),
            before,
        });
        Ok(())
    }

    fn get(&mut self, number: u64) -> Result<Option<Vec<u8>>, StoreFault> {
        self.reads = self.reads.wrapping_add(1);
        match read_file(&self.rt, &self.folder, number) {
            Ok(found) => Ok(found),
            Err(error) => Err(refusal(&mut self.faults, &error)),
        }
    }

    fn remove(&mut self, number: u64) -> Result<(), StoreFault> {
        let removed = remove_file(&self.rt, &self.folder, number);
        if removed.is_err() {
            self.faults = self.faults.saturating_add(1);
            return Err(StoreFault::Fault);
        }
        let before = mem::replace(&mut self.history, Snapshot::of(&History::Nothing));
        self.history = Snapshot::of(&History::Removed { number, before });
        Ok(())
    }
}
