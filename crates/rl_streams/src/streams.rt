//! All streams of a shard.
ghost use Rattle.std.specs.Prelude.{◌≡◌, ◌+◌, ◌<◌, ◌≤◌, ◌++◌, [], ◌∷◌, length, true, false, None, Some, Ok, Err, IfOk, IsErrOf, MatchOption, MatchResult, OnErr, OnOk};
ghost use Rattle.std.specs.List.{Contains};
ghost use Rattle.std.specs.Option.{option_map};
ghost use Rattle.rl_chunks.specs.StoreState.{faults_after, greatest};

use crate::adding::{Room, adopted, age_refusal, position_of, put};
use crate::cursor::Cursor;
use crate::lines::WaitingLines;
use crate::refusal::AddRefusal;
use crate::selections::Selections;
use crate::{cutting, flushing, reading, rewriting};
use indexmap::IndexMap;
use rl_chunks::{Store, StoreFault};
use rl_labels::{Covers, Entry, Labels, Limits, Matcher, Ns, SelectorCode, TimeRange};
use rl_parts::{ChunkStore, FlushFault, ReadFault, RewriteFault, Stream, Visitor};
use rl_plain::{PlainList, Shared};
use std::alloc::{AllocError, Global};
use std::marker::Model;

/// All streams of a shard over a store. Contracts see the entries that are held as one set, the newest timestamp of each stream,
/// the store, and the next number of a chunk.
#[derive(Drop)]
pub struct Streams<S: Store> {
    chunks: ChunkStore<S>,
    limits: Limits,
    streams: IndexMap<Labels, Stream>,
    // How many entries there are in all streams.
    count: u64,
    // Which streams the selectors select that were asked last.
    selections: Selections,
}

impl<S: Store> Model for Streams<S> {
    ghost use Rattle.std.specs.Map.{keys_of};
    ghost use Rattle.rl_streams.specs.Selected.{AreSelections};
    ghost use Rattle.rl_streams.specs.StreamsState.{StreamsView, view_of, streams_code, IsWhole};

    ghost Value = { StreamsView };

    ghost coded = { streams_code };

    ghost view = { λ a. view_of a.limits a.streams.entries a.chunks };

    ghost invariant = { λ a. IsWhole a.limits a.streams.entries a.chunks a.count × AreSelections (keys_of a.streams.entries) a.selections };
}

impl<S: Store> Streams<S> {
    ghost use Rattle.std.specs.FinMap.{contains_key, get, len};
    ghost use Rattle.rl_parts.specs.StoreUse.{IsGrown, Right, after_flush, after_read};
    ghost use Rattle.rl_parts.specs.Rewriting.{after_rewrite};
    ghost use Rattle.rl_streams.specs.Rewritten.{AreLeftIn, Rewrites, Stays, without};
    ghost use Rattle.rl_streams.specs.Asking.{AreVisited, AreVisitedOnce, NoneSelected, visited_at};
    ghost use Rattle.rl_streams.specs.CursorState.{left_in, AreAsked};
    ghost use Rattle.rl_streams.specs.Found.{IsFound, IsMissing, IsUnreached, IsSettled, IsSettledUnread};
    ghost use Rattle.rl_streams.specs.StreamRows.{numbers_in};
    ghost use Rattle.rl_streams.specs.StreamsState.{no_streams, age_refusal, order_of, after_add, Cuts, Flushes, IsDecided, Looks};

    /// Streams that hold nothing. The first number is that of the limits.
    pub fn new(alloc: Global, store: S, limits: Limits) -> Self
        ensures { result ≡ no_streams limits (S.seen store) }
    {
        let first = limits.first_blob;
        Streams {
            chunks: ChunkStore::new(alloc, store, first),
            limits,
            streams: IndexMap::new(alloc),
            count: 0,
            selections: Selections::new(alloc),
        }
    }

    /// The store.
    pub fn store(&self) -> &S
        ensures { S.seen result.now ≡ self.now.seen }
    {
        self.chunks.store()
    }

    /// The limits.
    pub fn limits(&self) -> &Limits
        ensures { result.now ≡ self.now.limits }
    {
        &self.limits
    }

    /// Seals the heads of all streams. Nothing changes of what is held. A refusal leaves some heads as they are.
    pub fn cut(&mut self) -> Result<(), AllocError>
        ensures same { Cuts self.old self.new }
        ensures all { OnOk result (self.new.loose ≡ 0) }
    {
        cutting::cut(&mut self.streams)
    }

    /// How many entries are held. A store that is not honest may make it count one twice.
    pub fn len(&self) -> u64
        ensures right { self.now.seen.honest ≡ true → result ≡ len self.now.held }
        ensures room { len self.now.held ≤ self.now.limits.entries }
    {
        self.count
    }

    /// Why an entry would be refused for its age, if it would be. Takes no memory, and reads nothing.
    pub fn age_refusal(&self, entry: &Entry, horizon: Ns) -> Option<AddRefusal>
        ensures { result ≡ age_refusal self.now.limits self.now.newest horizon entry.now }
    {
        let position = position_of(&self.streams, &entry.labels);
        age_refusal(&self.limits, &self.streams, position, horizon, entry)
    }

    /// An entry with the label set of its stream, where there is one and no one else shares the entry: who keeps the entry beside the
    /// streams then keeps no label set of its own.
    pub fn adopt(&self, entry: Shared<Entry>) -> Result<Shared<Entry>, AllocError>
        ensures { IfOk result (λ own. own ≡ entry) }
    {
        adopted(&self.streams, entry)
    }

    /// Takes an entry, and answers whether it was missing and is held now. One that was held changes nothing. The search for
    /// it may read from the store, so a fault of the store may be answered where the entry is held, or where there is no
    /// room. A refusal takes nothing.
    pub fn add(&mut self, entry: Shared<Entry>, horizon: Ns) -> Result<bool, AddRefusal>
        // An entry that is too old is refused without a read. What becomes of another follows from memory and from bytes with
        // the digests that were kept, over any store.
        ensures settled { MatchOption (age_refusal self.old.limits self.old.newest horizon entry) (IsSettled result self.old entry self.new) (λ refusal. (result ≡ Err refusal) × (self.new ≡ self.old)) }
        ensures counted { self.new.seen.faults ≡ after_add result self.old.seen.faults }
        ensures exact { age_refusal self.old.limits self.old.newest horizon entry ≡ None → IsUnreached self.old.rows entry → IsSettledUnread result self.old entry self.new }
        // Exactly one of these over an honest store.
        ensures decided { age_refusal self.old.limits self.old.newest horizon entry ≡ None → self.old.seen.honest ≡ true → IsDecided result self.old entry self.new }
    {
        let position = position_of(&self.streams, &entry.get().labels);
        let refusal = age_refusal(&self.limits, &self.streams, position, horizon, entry.get());
        if let Some(refusal) = refusal {
            return Err(refusal);
        }
        let room = Room {
            most: self.limits.chunk_entries,
            is_full: self.count >= self.limits.entries,
        };
        let (chunks, streams) = (&mut self.chunks, &mut self.streams);
        if !put(chunks, streams, position, entry, room)? {
            return Ok(false);
        }
        self.count += 1;
        Ok(true)
    }

    /// Writes the sealed parts that the store does not have, stream by stream. What was written before a refusal stays
    /// written, and the next call goes on from there.
    pub fn flush(&mut self) -> Result<(), FlushFault>
        ensures same { Flushes self.old self.new }
        ensures all { OnOk result (self.new.unwritten ≡ 0) }
        ensures grown { IsGrown result self.old.seen self.old.next self.new.next self.new.seen }
        ensures counted { self.new.seen.faults ≡ after_flush result self.old.seen.faults }
        ensures spent { IsErrOf result FlushFault.NumbersSpent → self.new.next ≡ greatest }
        ensures numbers { self.new.next ≤ greatest }
    {
        let flushed = flushing::flush(&mut self.chunks, &mut self.streams);
        // Read for contracts, which learn that it is within the greatest.
        let _next = self.chunks.next();
        flushed
    }

    /// Removes the entries that are covered. A part that the store has is read only where an entry of its range of time may
    /// be covered. A refusal changes nothing that is held; what was put into the store until then stays there unused. What
    /// the store refuses to remove stays there unused too.
    pub fn rewrite<C: Covers>(&mut self, covered: &C) -> Result<(), RewriteFault>
        ensures refused { OnErr result (Stays self.old self.new) }
        ensures rewritten { OnOk result (Rewrites self.old self.new) }
        // What is left of a part that the store has follows from bytes with its digest, over any store.
        ensures left { OnOk result (AreLeftIn (C.covers covered.now) self.old.rows self.new.rows) }
        ensures right { self.old.seen.honest ≡ true → OnOk result (self.new.held ≡ without (C.covers covered.now) self.old.held) }
        ensures undamaged { self.old.seen.honest ≡ true → IsErrOf result RewriteFault.Damaged → ⊥ }
        ensures counted { OnErr result (self.new.seen.faults ≡ after_rewrite result self.old.seen.faults) }
        ensures spent { IsErrOf result RewriteFault.NumbersSpent → self.new.next ≡ greatest }
        ensures numbers { self.new.next ≤ greatest }
    {
        let planned = rewriting::plan_all(&mut self.chunks, &self.streams, covered);
        // Read for contracts, as in `flush`.
        let _next = self.chunks.next();
        let plans = planned?;
        rewriting::carry_out_all(&mut self.chunks, &mut self.streams, plans);
        self.count = rewriting::count(&self.streams, self.count);
        Ok(())
    }

    /// Puts bytes beside the chunks, under the next number, which it answers. Nothing changes of what is held. Under that number
    /// they stay, whatever is flushed or removed after it.
    pub fn put_blob(&mut self, bytes: Vec<u8>) -> Result<u64, FlushFault>
        ensures number { IfOk result (λ number. number ≡ self.old.next) }
        ensures there { OnOk result (get self.new.seen.blobs self.old.next ≡ Some bytes.items) }
        ensures apart { Contains (numbers_in self.new.rows) self.old.next → ⊥ }
        ensures same { Stays self.old self.new }
        ensures next { MatchResult result (λ _. self.new.next ≡ self.old.next + 1) (λ _. self.new.next ≡ self.old.next) }
        ensures counted { self.new.seen.faults ≡ after_flush result self.old.seen.faults }
        ensures spent_first { self.old.next ≡ greatest → (result ≡ Err FlushFault.NumbersSpent) × (self.new ≡ self.old) }
        ensures spent { IsErrOf result FlushFault.NumbersSpent → self.new.next ≡ greatest }
    {
        self.chunks.put(bytes)
    }

    /// What the number has in the store, if it has something. No digest is compared.
    pub fn get_blob(&mut self, number: u64) -> Result<Option<Vec<u8>>, StoreFault>
        ensures found { self.old.seen.honest ≡ true → IfOk result (λ bytes. option_map (λ b. b.items) bytes ≡ get self.old.seen.blobs number) }
        ensures same { Looks self.old self.new }
        ensures counted { self.new.seen.faults ≡ faults_after result self.old.seen.faults }
    {
        self.chunks.get(number)
    }

    /// Whether the entry is held. Where no stream has its labels, nothing is read. A store that is not honest may hide an
    /// entry, and what it answers instead is found to be damaged.
    pub fn holds(&mut self, entry: &Entry) -> Result<bool, ReadFault>
        ensures same { Looks self.old self.new }
        ensures counted { self.new.seen.faults ≡ after_read result self.old.seen.faults }
        ensures unread { get self.old.newest entry.now.labels ≡ None → (result ≡ Ok false) × (self.new ≡ self.old) }
        // What is answered of a part that the store has follows from bytes with its digest, over any store.
        ensures yes { IfOk result (λ found. found ≡ true → IsFound self.old.rows entry.now) }
        ensures no { IfOk result (λ found. found ≡ false → IsMissing self.old.rows entry.now) }
        ensures exact { IsUnreached self.old.rows entry.now → (result ≡ Ok (contains_key self.old.held entry.now)) × (self.new ≡ self.old) }
        ensures right { self.old.seen.honest ≡ true → Right result (λ found. found ≡ contains_key self.old.held entry.now) }
    {
        reading::holds(&mut self.chunks, &self.streams, entry)
    }

    /// Visits the lines in a range of time of the streams that the selector selects: each once, one stream after the other.
    /// A stream that is not selected is asked for its labels alone, and once for a selector while no more than 1,024 are
    /// asked for. After a refusal some lines may have been visited.
    pub fn each<T: Visitor>(
        &mut self,
        selector: &PlainList<Matcher>,
        range: TimeRange,
        visitor: &mut T,
    ) -> Result<(), ReadFault>
        ensures same { Looks self.old self.new }
        ensures counted { self.new.seen.faults ≡ after_read result self.old.seen.faults }
        ensures unread { NoneSelected selector.now self.old.newest → self.new ≡ self.old }
        // What is visited of a part that the store has follows from bytes with its digest, over any store.
        ensures visited { OnOk result (AreVisited T.visiting selector.now range.from range.to self.old.rows visitor.old visitor.new) }
        ensures right { self.old.seen.honest ≡ true → Right result (λ _. AreVisitedOnce selector.now range.from range.to self.old.held T.visiting visitor.old visitor.new) }
    {
        let alloc = *self.chunks.allocator();
        let position = self.selections.select(alloc, &self.streams, selector)?;
        let selection = self.selections.at(position);
        let (chunks, streams) = (&mut self.chunks, &self.streams);
        reading::each(chunks, streams, selection, range, visitor)
    }

    /// A cursor over the lines in a range of time of the streams that the selector selects. Over an honest store it gives
    /// each once.
    pub fn cursor<'a>(&'a mut self, selector: &'a SelectorCode, range: TimeRange) -> Cursor<'a, S>
        ensures same_reference { result.streams.ghost_name ≡ self.entry.ghost_name }
        ensures streams { result.streams.now ≡ self.old }
        ensures asks { (result.selector.now ≡ selector.now) × (result.range ≡ range) }
        ensures left { self.old.seen.honest ≡ true → AreVisitedOnce selector.now range.from range.to self.old.held (λ lines line. lines ++ line ∷ []) [] (left_in result) }
    {
        let lines = WaitingLines::new(*self.chunks.allocator());
        Cursor::new(self, selector, range, lines)
    }

    // How many streams there are.
    pub(crate) fn stream_count(&self) -> usize
        ensures { result ≡ length (order_of self.now) }
    {
        self.streams.len()
    }

    // Puts what one stream has in the range after the lines that wait, if the selector selects it.
    pub(crate) fn visit_lines(
        &mut self,
        position: usize,
        selector: &SelectorCode,
        range: TimeRange,
        lines: &mut WaitingLines,
    ) -> Result<(), ReadFault>
        requires { position < length (order_of self.old) }
        ensures same { Looks self.old self.new }
        ensures counted { self.new.seen.faults ≡ after_read result self.old.seen.faults }
        ensures asked { OnOk result (AreAsked self.old.rows selector.now range.from range.to position lines.old (position + 1) lines.new) }
        ensures right { self.old.seen.honest ≡ true → Right result (λ _. lines.new ≡ lines.old ++ visited_at selector.now range.from range.to (order_of self.old) position) }
    {
        let (chunks, stream) = (&mut self.chunks, &self.streams[position]);
        reading::each_selected(chunks, stream, selector, range, lines)
    }
}
