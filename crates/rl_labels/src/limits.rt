//! The limits of a session.
ghost use Rattle.std.specs.Prelude.{◌≡◌, ◌≤◌, MatchResult};

use std::fmt;
use thiserror::Error;

/// A limit, by the name of its field.
#[derive(Clone, Copy, Debug, Drop)]
pub enum LimitField {
    Entries,
    ChunkEntries,
    ChunkAge,
    Cancel,
    Keep,
    Cache,
    Records,
    FirstBlob,
}

impl LimitField {
    ghost use Rattle.rl_labels.specs.LimitRanges.{range_text};

    // The limit by its name, and its range.
    fn range(self) -> &'static str
        ensures { result.now ≡ range_text self }
    {
        match self {
            LimitField::Entries => "entries is 1 to 67108864",
            LimitField::ChunkEntries => "chunk_entries is 1 to 1048576",
            LimitField::ChunkAge => "chunk_age is 0 to 2592000 seconds",
            LimitField::Cancel => "cancel is 0 to 31536000 seconds",
            LimitField::Keep => "keep is 0 to 315360000 seconds",
            LimitField::Cache => "cache is 0 to 4096 chunks",
            LimitField::Records => "records is 1 to 1048576",
            LimitField::FirstBlob => "first_blob is any number",
        }
    }
}

impl fmt::Display for LimitField {
    ghost use Rattle.std.specs.Prelude.{Some};
    ghost use Rattle.rl_labels.specs.LimitRanges.{range_text};

    ghost output = { λ field. Some (range_text field) };

    fn fmt<W: fmt::Write>(&self, f: &mut fmt::Formatter<W>) -> fmt::Result {
        f.write_str(self.range())
    }
}

/// Limits as they were asked for. Ages and periods are in seconds.
#[derive(Clone, Copy)]
pub struct RawLimits {
    /// The most entries that a shard holds, 1 to 67,108,864.
    pub entries: u64,
    /// How many entries seal a chunk, 1 to 1,048,576.
    pub chunk_entries: u64,
    /// The greatest age of a chunk, 0 to 2,592,000. Entries up to half of it late are taken.
    pub chunk_age: u64,
    /// How long a deletion waits before it is processed, so that it can be cancelled, 0 to 31,536,000.
    pub cancel: u64,
    /// How long entries are kept, up to 315,360,000; 0 is for ever.
    pub keep: u64,
    /// How many decoded chunks are kept at hand, up to 4,096.
    pub cache: u64,
    /// The most records of one journal or one book, 1 to 1,048,576.
    pub records: u64,
    /// The first number that is given to a blob.
    pub first_blob: u64,
}

/// The limits that hold where no others are asked for.
pub const DEFAULT_LIMITS: RawLimits = RawLimits {
    entries: 67_108_864,
    chunk_entries: 1_024,
    chunk_age: 7_200,
    cancel: 86_400,
    keep: 0,
    cache: 0,
    records: 1_048_576,
    first_blob: 0,
};

/// Limits that are in their ranges.
#[derive(Clone, Copy)]
pub struct Limits {
    pub entries: u64,
    pub chunk_entries: u64,
    pub chunk_age: u64,
    pub cancel: u64,
    pub keep: u64,
    pub cache: u64,
    pub records: u64,
    pub first_blob: u64,
    ghost entries_in_range: { (1 ≤ entries) × (entries ≤ 67108864) },
    ghost chunk_entries_in_range: { (1 ≤ chunk_entries) × (chunk_entries ≤ 1048576) },
    ghost chunk_age_in_range: { chunk_age ≤ 2592000 },
    ghost cancel_in_range: { cancel ≤ 31536000 },
    ghost keep_in_range: { keep ≤ 315360000 },
    ghost cache_in_range: { cache ≤ 4096 },
    ghost records_in_range: { (1 ≤ records) × (records ≤ 1048576) },
}

/// The first limit that is out of its range.
#[derive(Clone, Copy, Debug, Drop, Error)]
#[error("a limit is out of its range: {field}")]
pub struct BadLimit {
    pub field: LimitField,
}

impl Limits {
    ghost use Rattle.std.specs.Prelude.{None, Some};
    ghost use Rattle.rl_labels.specs.LimitRanges.{raw_limits, first_out_of_range};

    /// The limits, if each is in its range. Of several that are not, the first in the order of the fields is reported.
    pub fn check(raw: RawLimits) -> Result<Limits, BadLimit>
        ensures in_range { MatchResult result (λ _. first_out_of_range raw ≡ None) (λ bad. first_out_of_range raw ≡ Some bad.field) }
        ensures same { MatchResult result (λ limits. raw_limits limits ≡ raw) (λ _. Unit {0}) }
    {
        let bad = |field| Err(BadLimit { field });
        if raw.entries < 1 || raw.entries > 67_108_864 {
            return bad(LimitField::Entries);
        }
        if raw.chunk_entries < 1 || raw.chunk_entries > 1_048_576 {
            return bad(LimitField::ChunkEntries);
        }
        if raw.chunk_age > 2_592_000 {
            return bad(LimitField::ChunkAge);
        }
        if raw.cancel > 31_536_000 {
            return bad(LimitField::Cancel);
        }
        if raw.keep > 315_360_000 {
            return bad(LimitField::Keep);
        }
        if raw.cache > 4_096 {
            return bad(LimitField::Cache);
        }
        if raw.records < 1 || raw.records > 1_048_576 {
            return bad(LimitField::Records);
        }
        Ok(Limits {
            entries: raw.entries,
            chunk_entries: raw.chunk_entries,
            chunk_age: raw.chunk_age,
            cancel: raw.cancel,
            keep: raw.keep,
            cache: raw.cache,
            records: raw.records,
            first_blob: raw.first_blob,
        })
    }
}
