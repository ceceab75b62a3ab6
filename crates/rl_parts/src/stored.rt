//! An entry of a stream, with its timestamp beside it.
ghost use Rattle.std.specs.Prelude.{◌≡◌, IfOk};
ghost use Rattle.rl_chunks.specs.ChunkText.{line_cmp};
ghost use Rattle.rl_chunks.specs.EntryLines.{line_of};

use rl_chunks::AsLine;
use rl_labels::{Entry, Labels, Ns};
use rl_plain::{Shared, TryCopy};
use std::alloc::AllocError;
use std::cmp::Ordering;
use std::marker::Model;

// An entry, with its timestamp beside it, so that a search seldom has to look into the entry's block. Contracts see the entry.
#[derive(Drop)]
pub(crate) struct StoredEntry {
    timestamp: Ns,
    entry: Shared<Entry>,
}

impl Model for StoredEntry {
    ghost use Rattle.std.specs.Prelude.{◌≡◌};
    ghost use Rattle.rl_labels.specs.declared.entry.Entry.{Entry};
    ghost use Rattle.rl_labels.specs.contracts.entry.Entry as entry_type;

    ghost Value = { Entry };

    ghost coded = { entry_type.the_row.coded };

    ghost view = { λ a. a.entry };

    ghost invariant = { λ a. a.timestamp ≡ a.entry.timestamp };
}

impl StoredEntry {
    pub(crate) fn new(entry: Shared<Entry>) -> StoredEntry
        ensures { result ≡ entry }
    {
        let timestamp = entry.get().timestamp;
        StoredEntry { timestamp, entry }
    }

    pub(crate) fn entry(&self) -> &Entry
        ensures { result.now ≡ self.now }
    {
        self.entry.get()
    }

    // One owner more.
    pub(crate) fn share(&self) -> Result<StoredEntry, AllocError>
        ensures { IfOk result (λ stored. stored ≡ self.now) }
    {
        let entry = self.entry.try_copy()?;
        Ok(StoredEntry::new(entry))
    }

    // How it stands to another entry of its stream: by timestamp, and then by line.
    pub(crate) fn order(&self, other: &Entry) -> Ordering
        ensures { result ≡ line_cmp (line_of self.now) (line_of other.now) }
    {
        self.timestamp
            .cmp(&other.timestamp)
            .then_with(|| self.entry.get().line.cmp(&other.line))
    }
}

impl AsLine for StoredEntry {
    ghost line = { line_of };

    fn timestamp(&self) -> Ns {
        self.timestamp
    }

    fn text(&self) -> &str {
        self.entry.get().line.as_str()
    }
}

// The entry with these labels instead of its own, which are equal, unless others share it. So the entries of a stream
// share one label set.
pub(crate) fn with_labels(
    mut entry: Shared<Entry>,
    labels: &Labels,
) -> Result<Shared<Entry>, AllocError>
    requires { entry.labels ≡ labels.now }
    ensures { IfOk result (λ own. own ≡ entry) }
{
    match entry.get_mut() {
        Some(own) => {
            own.labels = labels.try_copy()?;
            Ok(entry)
        }
        None => Ok(entry),
    }
}
