//! How streams take an entry.
ghost use Rattle.std.specs.Prelude.{◌≡◌, ◌≤◌, true, false, IfOk, IfErr, OnOk, OnErr, if◌then◌else◌};
ghost use Rattle.std.specs.List.{AllByRecursion, IsDistinct};
ghost use Rattle.std.specs.Map.{keys_of};
ghost use Rattle.rl_labels.specs.LabelText.{label_set_eq};
ghost use Rattle.rl_parts.specs.StreamParts.{entries_of, most_entries};
ghost use Rattle.rl_parts.specs.Reading.{NoneReaches, IsFoundIn, IsMissingIn};
ghost use Rattle.rl_parts.specs.StoreUse.{Reads, AreKept};
ghost use Rattle.rl_streams.specs.Found.{IsFound, IsMissing, IsUnreached, IsAnswered, IsAnsweredUnread};
ghost use Rattle.rl_streams.specs.StreamRows.{joined, newest_in, newest_map, is_among, IsOwn, AreStreams};
ghost use Rattle.rl_streams.specs.RowSteps.{AreAdded, AreOffered, AreOthers, IsOffered, IsOfferedRight, IsPositionOf};
ghost use Rattle.rl_streams.specs.StreamsState.{age_refusal, after_add, is_far_behind};
ghost use Rattle.rl_streams.specs.declared.refusal.AddRefusal.TheVariants.{Full, Read};
ghost use Rattle.rl_parts.specs.declared.fault.ReadFault.TheVariants.{Memory};

use crate::refusal::AddRefusal;
use indexmap::IndexMap;
use rl_chunks::Store;
use rl_labels::{Entry, Labels, Limits, Ns};
use rl_parts::{ChunkStore, Stream};
use rl_plain::{Shared, TryCopy};
use std::alloc::{AllocError, Global};

// Half of a second, in nanoseconds.
const HALF_SECOND: u64 = 500_000_000;

// How many entries a part has at most, and whether as many are held as may be.
#[derive(Clone, Copy)]
pub(crate) struct Room {
    pub(crate) most: u64,
    pub(crate) is_full: bool,
}

// Whether the entry is older than a timestamp by more than half of the age of a chunk.
fn is_far_behind(limits: &Limits, entry: &Entry, newest: Ns) -> bool
    ensures { result ≡ is_far_behind limits.now entry.now newest }
{
    entry.timestamp.get() + limits.chunk_age * HALF_SECOND < newest.get()
}

// Where the stream of the labels stands, if there is one.
pub(crate) fn position_of(streams: &IndexMap<Labels, Stream>, labels: &Labels) -> Option<usize>
    ensures position { IsPositionOf streams.now.entries labels.now result }
    ensures apart { IsDistinct label_set_eq (keys_of streams.now.entries) }
{
    streams.get_index_of(labels)
}

// Why the entry is refused for its age, if it is. Its stream stands at the index.
pub(crate) fn age_refusal(
    limits: &Limits,
    streams: &IndexMap<Labels, Stream>,
    position: Option<usize>,
    horizon: Ns,
    entry: &Entry,
) -> Option<AddRefusal>
    requires position { IsPositionOf streams.now.entries entry.now.labels position }
    requires apart { IsDistinct label_set_eq (keys_of streams.now.entries) }
    ensures { result ≡ age_refusal limits.now (newest_map (newest_in streams.now.entries)) horizon entry.now }
{
    if entry.timestamp < horizon {
        return Some(AddRefusal::Expired { horizon });
    }
    match position {
        None => None,
        Some(position) => {
            let newest = streams[position].newest();
            if is_far_behind(limits, entry, newest) {
                Some(AddRefusal::TooFarBehind { newest })
            } else {
                None
            }
        }
    }
}

// The entry with the label set of its stream, if there is one.
pub(crate) fn adopted(
    streams: &IndexMap<Labels, Stream>,
    entry: Shared<Entry>,
) -> Result<Shared<Entry>, AllocError>
    ensures { IfOk result (λ own. own ≡ entry) }
{
    let Some(position) = position_of(streams, &entry.get().labels) else {
        return Ok(entry);
    };
    let Some((labels, _)) = streams.get_index(position) else {
        return Ok(entry);
    };
    with_labels(entry, labels)
}

// The entry with these labels instead of its own, which are equal, unless others share it.
fn with_labels(mut entry: Shared<Entry>, labels: &Labels) -> Result<Shared<Entry>, AllocError>
    requires { entry.labels ≡ labels.now }
    ensures { IfOk result (λ own. own ≡ entry) }
{
    match entry.get_mut() {
        Some(own) => {
            own.labels = labels.try_copy()?;
            Ok(entry)
        }
        None => Ok(entry),
    }
}

// Lets a stream take an entry of its labels, unless it holds it. The answer says whether it took it.
fn offer<S: Store>(
    chunks: &mut ChunkStore<S>,
    stream: &mut Stream,
    entry: Shared<Entry>,
    room: Room,
) -> Result<bool, AddRefusal>
    requires labels { entry.labels ≡ stream.old.labels }
    requires some { 1 ≤ room.most }
    requires few { room.most ≤ most_entries }
    ensures reads { Reads chunks.old chunks.new }
    ensures counted { chunks.new.seen.faults ≡ after_add result chunks.old.seen.faults }
    ensures answers { IsAnswered result (IsFoundIn entry stream.old) (IsMissingIn entry stream.old) room.is_full }
    ensures exact { NoneReaches entry.timestamp entry.timestamp stream.old → IsAnsweredUnread result (is_among entry (entries_of stream.old)) room.is_full × (chunks.new ≡ chunks.old) }
    ensures taken { IfOk result (λ more. IsOffered room.most more stream.old entry stream.new) }
    ensures refused { OnErr result (stream.new ≡ stream.old) }
    ensures right { AreKept chunks.old stream.old → chunks.old.seen.honest ≡ true → IsOfferedRight result (is_among entry (entries_of stream.old)) }
{
    if stream.holds(chunks, entry.get())? {
        return Ok(false);
    }
    if room.is_full {
        return Err(AddRefusal::Full);
    }
    stream.hold(entry, room.most)?;
    Ok(true)
}

// Puts a stream of the entry alone after the others.
fn begin(
    alloc: Global,
    streams: &mut IndexMap<Labels, Stream>,
    entry: Shared<Entry>,
    room: Room,
) -> Result<(), AddRefusal>
    requires new { AreOthers entry.labels streams.old.entries }
    requires some { 1 ≤ room.most }
    requires few { room.most ≤ most_entries }
    ensures room { OnOk result (room.is_full ≡ false) }
    ensures taken { OnOk result (AreAdded room.most streams.old.entries entry streams.new.entries) }
    ensures refused { OnErr result (streams.new.entries ≡ streams.old.entries) }
    ensures cause { IfErr result (λ refusal. refusal ≡ (if room.is_full then Full else Read Memory)) }
{
    if room.is_full {
        return Err(AddRefusal::Full);
    }
    let labels = entry.get().labels.try_copy()?;
    let stream = Stream::start(alloc, entry, room.most)?;
    streams.insert(labels, stream)?;
    Ok(())
}

// Lets the stream of its labels take the entry, unless it is held. A new stream comes after the others. The answer says
// whether there is one entry more.
pub(crate) fn put<S: Store>(
    chunks: &mut ChunkStore<S>,
    streams: &mut IndexMap<Labels, Stream>,
    position: Option<usize>,
    entry: Shared<Entry>,
    room: Room,
) -> Result<bool, AddRefusal>
    requires position { IsPositionOf streams.old.entries entry.labels position }
    requires own { AllByRecursion IsOwn streams.old.entries }
    requires apart { IsDistinct label_set_eq (keys_of streams.old.entries) }
    requires some { 1 ≤ room.most }
    requires few { room.most ≤ most_entries }
    ensures reads { Reads chunks.old chunks.new }
    ensures counted { chunks.new.seen.faults ≡ after_add result chunks.old.seen.faults }
    ensures answers { IsAnswered result (IsFound streams.old.entries entry) (IsMissing streams.old.entries entry) room.is_full }
    ensures exact { IsUnreached streams.old.entries entry → IsAnsweredUnread result (is_among entry (joined streams.old.entries)) room.is_full × (chunks.new ≡ chunks.old) }
    ensures taken { IfOk result (λ more. AreOffered room.most more streams.old.entries entry streams.new.entries) }
    ensures refused { OnErr result (streams.new.entries ≡ streams.old.entries) }
    ensures right { AreStreams streams.old.entries chunks.old → chunks.old.seen.honest ≡ true → IsOfferedRight result (is_among entry (joined streams.old.entries)) }
{
    match position {
        None => {
            begin(*chunks.allocator(), streams, entry, room)?;
            Ok(true)
        }
        Some(position) => offer(chunks, &mut streams[position], entry, room),
    }
}
