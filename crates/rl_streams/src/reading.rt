//! What streams hold, read where it is.
ghost use Rattle.std.specs.Prelude.{◌≡◌, true, false, Ok, IfOk, OnOk};
ghost use Rattle.std.specs.List.{AllByRecursion, fold};
ghost use Rattle.std.specs.Map.{keys_of};
ghost use Rattle.rl_labels.specs.Selects.{selects};
ghost use Rattle.rl_parts.specs.StoreUse.{Reads, AreKept, Right, after_read};
ghost use Rattle.rl_streams.specs.Asking.{visited_of, visited_by, AreVisited, IsVisitedOf};
ghost use Rattle.rl_streams.specs.Found.{IsFound, IsMissing, IsUnreached};
ghost use Rattle.rl_streams.specs.RowSteps.{AreOthers};
ghost use Rattle.rl_streams.specs.Selected.{selected};
ghost use Rattle.rl_streams.specs.StreamRows.{joined, is_among, IsOwn, AreStreams};

use crate::adding::position_of;
use crate::selections::Selection;
use indexmap::IndexMap;
use rl_chunks::Store;
use rl_labels::{Entry, Labels, SelectorCode, TimeRange};
use rl_parts::{ChunkStore, ReadFault, Stream, Visitor};

// Whether a stream holds the entry. Where no stream has its labels, nothing is read.
pub(crate) fn holds<S: Store>(
    chunks: &mut ChunkStore<S>,
    streams: &IndexMap<Labels, Stream>,
    entry: &Entry,
) -> Result<bool, ReadFault>
    requires { AllByRecursion IsOwn streams.now.entries }
    ensures reads { Reads chunks.old chunks.new }
    ensures counted { chunks.new.seen.faults ≡ after_read result chunks.old.seen.faults }
    ensures unread { AreOthers entry.now.labels streams.now.entries → (result ≡ Ok false) × (chunks.new ≡ chunks.old) }
    // What is answered of a part that the store has follows from bytes with its digest, over any store.
    ensures yes { IfOk result (λ found. found ≡ true → IsFound streams.now.entries entry.now) }
    ensures no { IfOk result (λ found. found ≡ false → IsMissing streams.now.entries entry.now) }
    ensures exact { IsUnreached streams.now.entries entry.now → (result ≡ Ok (is_among entry.now (joined streams.now.entries))) × (chunks.new ≡ chunks.old) }
    ensures right { AreStreams streams.now.entries chunks.old → chunks.old.seen.honest ≡ true → Right result (λ found. found ≡ is_among entry.now (joined streams.now.entries)) }
{
    match position_of(streams, &entry.labels) {
        None => Ok(false),
        Some(position) => streams[position].holds(chunks, entry),
    }
}

// Visits the lines of a stream in the range, if the selector selects it.
pub(crate) fn each_selected<S: Store, T: Visitor>(
    chunks: &mut ChunkStore<S>,
    stream: &Stream,
    selector: &SelectorCode,
    range: TimeRange,
    visitor: &mut T,
) -> Result<(), ReadFault>
    ensures reads { Reads chunks.old chunks.new }
    ensures counted { chunks.new.seen.faults ≡ after_read result chunks.old.seen.faults }
    ensures lines { OnOk result (IsVisitedOf T.visiting selector.now range.from range.to (stream.now.labels, stream.now) visitor.old visitor.new) }
    ensures right { AreKept chunks.old stream.now → chunks.old.seen.honest ≡ true → Right result (λ _. visitor.new ≡ fold T.visiting visitor.old (visited_of selector.now range.from range.to stream.now.labels stream.now)) }
{
    if !selector.accepts(stream.labels())? {
        return Ok(());
    }
    stream.each(chunks, range, visitor)
}

// Visits the lines in the range of the streams of a selection, of which all were asked. The others are not read.
pub(crate) fn each<S: Store, T: Visitor>(
    chunks: &mut ChunkStore<S>,
    streams: &IndexMap<Labels, Stream>,
    selection: &Selection,
    range: TimeRange,
    visitor: &mut T,
) -> Result<(), ReadFault>
    requires own { AllByRecursion IsOwn streams.now.entries }
    requires positions { selection.now.positions ≡ selected selection.now.selector (keys_of streams.now.entries) }
    ensures reads { Reads chunks.old chunks.new }
    ensures counted { chunks.new.seen.faults ≡ after_read result chunks.old.seen.faults }
    ensures unread { AllByRecursion (λ row. selects selection.now.selector row.0 ≡ false) streams.now.entries → chunks.new ≡ chunks.old }
    ensures visited { OnOk result (AreVisited T.visiting selection.now.selector range.from range.to streams.now.entries visitor.old visitor.new) }
    ensures right { AreStreams streams.now.entries chunks.old → chunks.old.seen.honest ≡ true → Right result (λ _. visitor.new ≡ fold T.visiting visitor.old (visited_by selection.now.selector range.from range.to streams.now.entries)) }
{
    for position in selection.positions() {
        streams[*position].each(chunks, range, visitor)?;
    }
    Ok(())
}
