//! What covers entries, as delete requests do.
ghost use Rattle.std.specs.Prelude.{◌≡◌, ◌≤◌, ℕ, Bool, List, false, IfOk};
ghost use Rattle.rl_labels.specs.LabelSet.{LabelSet};
ghost use Rattle.rl_labels.specs.declared.entry.Entry.{Entry};

use crate::entry::Entry;
use crate::labels::Labels;
use crate::ns::Ns;
use std::alloc::AllocError;

/// What covers entries, as delete requests do.
pub trait Covers {
    ghost covers_line: { Self → LabelSet → ℕ → List ℕ → Bool };

    ghost covers: { Self → Entry → Bool };

    /// Whether an entry with these parts is covered.
    fn covers_line(&self, labels: &Labels, timestamp: Ns, line: &str) -> Result<bool, AllocError>
        ensures { IfOk result (λ answer. answer ≡ covers_line self.now labels.now timestamp line.now) };

    /// Whether an entry of the stream from one moment to another, both included, may be covered.
    fn may_cover(&self, labels: &Labels, from: Ns, to: Ns) -> Result<bool, AllocError>
        ensures { IfOk result (λ answer. answer ≡ false → (entry : Entry) → entry.labels ≡ labels.now → from ≤ entry.timestamp → entry.timestamp ≤ to → covers self.now entry ≡ false) };

    /// Whether the entry is covered.
    final fn covers(&self, entry: &Entry) -> Result<bool, AllocError>
        ensures { IfOk result (λ answer. answer ≡ covers self.now entry.now) }
    {
        self.covers_line(&entry.labels, entry.timestamp, entry.line.as_str())
    }

    ghost by_parts: { (covering : Self) (entry : Entry) → covers covering entry ≡ covers_line covering entry.labels entry.timestamp entry.line };
}
