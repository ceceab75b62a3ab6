//! Log entries: labels, a timestamp and a line.
ghost use Rattle.std.specs.Prelude.{◌≡◌, ◌≤◌, IsTrue, length};
ghost use Rattle.rl_labels.specs.EntryParts.{is_stream, longest_line};

use crate::labels::Labels;
use crate::ns::Ns;
use rl_plain::{PlainText, Same, TryCopy};
use std::alloc::AllocError;
use std::cmp::Ordering;
use thiserror::Error;

/// The longest line, in bytes.
pub const MAX_LINE_LEN: usize = 65_535;

/// A log entry. Entries are ordered by label text, timestamp and line bytes.
#[derive(Drop, PartialEq, Eq, PartialOrd, Hash)]
pub struct Entry {
    pub labels: Labels,
    pub timestamp: Ns,
    pub line: PlainText,
    ghost of_stream: { IsTrue (is_stream labels) },
    ghost fits: { length line ≤ longest_line },
}

/// Why an entry is refused, the lowest first.
#[derive(Clone, Copy, Debug, Drop, Error)]
pub enum EntryFault {
    #[error("a stream has at least one label")]
    NoLabels,
    #[error("the line is longer than 65535 bytes")]
    TooLong,
}

/// A refused entry, handed back with its fault.
#[derive(Drop)]
pub struct RefusedEntry {
    pub fault: EntryFault,
    pub labels: Labels,
    pub timestamp: Ns,
    pub line: PlainText,
}

impl Entry {
    ghost use Rattle.std.specs.Prelude.{None, Some, MatchResult};
    ghost use Rattle.rl_labels.specs.EntryParts.{are_stream_labels};
    ghost use Rattle.rl_labels.specs.EntryAnswers.{entry_fault, KeepsParts};

    /// The entry of its parts. A refusal hands them back.
    ///
    /// A stream's labels have at most 4,096 bytes of text, and none is the error label. `Labels::from_pairs` sees to both;
    /// `Labels::with_label` has no such limits, so its sets have no way in.
    pub fn new(labels: Labels, timestamp: Ns, line: PlainText) -> Result<Entry, RefusedEntry>
        requires { IsTrue (are_stream_labels labels) }
        ensures fault { MatchResult result (λ _. entry_fault labels line ≡ None) (λ refused. entry_fault labels line ≡ Some refused.fault) }
        ensures parts { KeepsParts result labels timestamp line }
    {
        if labels.pairs().is_empty() {
            let fault = EntryFault::NoLabels;
            return Err(RefusedEntry {
                fault,
                labels,
                timestamp,
                line,
            });
        }
        if line.len() > MAX_LINE_LEN {
            let fault = EntryFault::TooLong;
            return Err(RefusedEntry {
                fault,
                labels,
                timestamp,
                line,
            });
        }
        Ok(Entry {
            labels,
            timestamp,
            line,
        })
    }
}

impl TryCopy for Entry {
    fn try_copy(&self) -> Result<Self, AllocError> {
        let labels = self.labels.try_copy()?;
        let line = self.line.try_copy()?;
        Ok(Entry {
            labels,
            timestamp: self.timestamp,
            line,
        })
    }
}

impl Same for Entry {
    fn is_same(&self, other: &Self) -> bool {
        self == other
    }
}

impl Ord for Entry {
    ghost use Rattle.std.proofs.Common.{rules};
    ghost use Rattle.std.specs.Cmp.Rules.{comparing};
    ghost use Rattle.rl_labels.specs.EntryOrder.{entry_cmp};
    ghost use Rattle.rl_labels.specs.laws.OrderLaws.{entry_cmp_total};

    ghost cmp = { entry_cmp };

    ghost total = { entry_cmp_total };

    ghost matches_partial_cmp = { Prim.search (comparing, rules) };

    ghost matches_eq = { Prim.search (comparing, rules) };

    fn cmp(&self, other: &Self) -> Ordering {
        self.labels
            .cmp(&other.labels)
            .then_with(|| self.timestamp.cmp(&other.timestamp))
            .then_with(|| self.line.cmp(&other.line))
    }
}
