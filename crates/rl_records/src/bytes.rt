//! The bytes of records, and their digests.
ghost use Rattle.std.specs.Prelude.{◌≡◌, ◌++◌, ◌∷◌, [], IfOk, OnOk};
ghost use Rattle.std.specs.FinMap.{entries};
ghost use Rattle.std.specs.List.{flat_map};
ghost use Rattle.std.specs.Io.KnownBytes.{Appends};
ghost use Rattle.rl_records.specs.RecordBytes.{deletion_bytes, digest_of, frame, number, partial_bytes, push_bytes, record_bytes, reply_bytes, step_bytes, terms_bytes, volume_bytes};

use crate::record::Record;
use crate::sieve_text::SieveText;
use crate::step::{ShardReply, ShardStep};
use crate::target::{ByteTarget, InMemory};
use crate::terms::Terms;
use rl_aggregate::{Partial, Totals, Volume};
use rl_deletes::Deletion;
use rl_digests::Hasher;
use rl_labels::{Entry, Labels};
use rl_plain::{PlainText, Shared};
use std::alloc::{AllocError, Global};

/// The bytes of a record: its step, and then its reply.
pub fn record_bytes(alloc: Global, it: &Record) -> Result<Vec<u8>, AllocError>
    ensures { IfOk result (λ bytes. bytes.items ≡ record_bytes it.now) }
{
    let mut target = InMemory {
        bytes: Vec::new(alloc),
    };
    put_record(&mut target, it)?;
    Ok(target.bytes)
}

/// The SHA-256 (FIPS 180-4) of a record's bytes. Takes no memory.
pub fn digest_of(it: &Record) -> [u8; 32]
    ensures { result ≡ digest_of it.now }
{
    let mut hasher = Hasher::new();
    match put_record(&mut hasher, it) {
        Ok(()) => hasher.digest(),
        Err(never) => match never {},
    }
}

fn put_record<T: ByteTarget>(target: &mut T, it: &Record) -> Result<(), T::Error>
    ensures { OnOk result (Appends (T.contents target.old) (T.contents target.new) (record_bytes it.now)) }
{
    put_step(target, &it.step)?;
    put_reply(target, &it.reply)
}

fn put_step<T: ByteTarget>(target: &mut T, step: &ShardStep) -> Result<(), T::Error>
    ensures { OnOk result (Appends (T.contents target.old) (T.contents target.new) (step_bytes step.now)) }
{
    match step {
        ShardStep::Push(entry) => put_push(target, entry.get()),
        ShardStep::Cut => put_tag(target, 2),
        ShardStep::Flush => put_tag(target, 3),
        ShardStep::Delete(deletion) => put_deletion(target, deletion),
        ShardStep::Cancel { id } => {
            put_tag(target, 5)?;
            put_number(target, *id)
        }
        ShardStep::Process { id, now } => {
            put_tag(target, 6)?;
            put_number(target, *id)?;
            put_number(target, now.get())
        }
        ShardStep::Retain { now } => {
            put_tag(target, 7)?;
            put_number(target, now.get())
        }
        ShardStep::Collect { slot, terms, t } => {
            put_tag(target, 8)?;
            put_number(target, *slot)?;
            put_terms(target, terms)?;
            put_number(target, t.get())
        }
    }
}

fn put_push<T: ByteTarget>(target: &mut T, entry: &Entry) -> Result<(), T::Error>
    ensures { OnOk result (Appends (T.contents target.old) (T.contents target.new) (push_bytes entry.now)) }
{
    put_tag(target, 1)?;
    put_frame(target, entry.labels.as_text())?;
    put_number(target, entry.timestamp.get())?;
    put_frame(target, entry.line.as_str())
}

fn put_deletion<T: ByteTarget>(
    target: &mut T,
    deletion: &Deletion<SieveText>,
) -> Result<(), T::Error>
    ensures { OnOk result (Appends (T.contents target.old) (T.contents target.new) (deletion_bytes deletion.now)) }
{
    put_tag(target, 4)?;
    put_number(target, deletion.id)?;
    put_frame(target, deletion.selector.text())?;
    put_number(target, deletion.start.get())?;
    put_number(target, deletion.end.get())?;
    put_number(target, deletion.created.get())
}

// How many terms, and the text of each.
fn put_terms<T: ByteTarget>(target: &mut T, terms: &Terms) -> Result<(), T::Error>
    ensures { OnOk result (Appends (T.contents target.old) (T.contents target.new) (terms_bytes terms.now)) }
{
    let texts = terms.texts();
    put_number(target, texts.len() as u64)?;
    put_frames(target, texts)
}

fn put_frames<T: ByteTarget>(target: &mut T, texts: &[PlainText]) -> Result<(), T::Error>
    ensures { OnOk result (Appends (T.contents target.old) (T.contents target.new) (flat_map frame texts.now)) }
{
    for text in texts {
        put_frame(target, text.as_str())?;
    }
    Ok(())
}

fn put_reply<T: ByteTarget>(target: &mut T, reply: &ShardReply) -> Result<(), T::Error>
    ensures { OnOk result (Appends (T.contents target.old) (T.contents target.new) (reply_bytes reply.now)) }
{
    match reply {
        ShardReply::Accepted => put_tag(target, 1),
        ShardReply::Done => put_tag(target, 2),
        ShardReply::Expired { horizon } => {
            put_tag(target, 3)?;
            put_number(target, horizon.get())
        }
        ShardReply::TooFarBehind { newest } => {
            put_tag(target, 4)?;
            put_number(target, newest.get())
        }
        ShardReply::Full => put_tag(target, 5),
        ShardReply::IdTaken => put_tag(target, 6),
        ShardReply::RequestsFull => put_tag(target, 7),
        ShardReply::NoSuchRequest => put_tag(target, 8),
        ShardReply::AlreadyProcessed => put_tag(target, 9),
        ShardReply::WasCancelled => put_tag(target, 10),
        ShardReply::TooEarly => put_tag(target, 11),
        ShardReply::Collected(partials) => {
            put_tag(target, 12)?;
            put_number(target, partials.len() as u64)?;
            put_partials(target, partials.as_slice())
        }
    }
}

fn put_partials<T: ByteTarget>(target: &mut T, partials: &[Shared<Partial>]) -> Result<(), T::Error>
    ensures { OnOk result (Appends (T.contents target.old) (T.contents target.new) (flat_map partial_bytes partials.now)) }
{
    for partial in partials {
        put_partial(target, partial.get())?;
    }
    Ok(())
}

fn put_partial<T: ByteTarget>(target: &mut T, partial: &Partial) -> Result<(), T::Error>
    ensures { OnOk result (Appends (T.contents target.old) (T.contents target.new) (partial_bytes partial.now)) }
{
    put_number(target, partial.errors)?;
    put_number(target, partial.totals.len() as u64)?;
    put_totals(target, &partial.totals)
}

// Each label set with what its lines add up to, in their order.
fn put_totals<T: ByteTarget>(target: &mut T, totals: &Totals) -> Result<(), T::Error>
    ensures { OnOk result (Appends (T.contents target.old) (T.contents target.new) (flat_map volume_bytes (entries totals.now))) }
{
    for (labels, volume) in totals.iter() {
        put_volume(target, labels, volume)?;
    }
    Ok(())
}

fn put_volume<T: ByteTarget>(
    target: &mut T,
    labels: &Labels,
    volume: &Volume,
) -> Result<(), T::Error>
    ensures { OnOk result (Appends (T.contents target.old) (T.contents target.new) (volume_bytes (labels.now, volume.now))) }
{
    put_frame(target, labels.as_text())?;
    put_number(target, volume.count)?;
    put_number(target, volume.bytes)
}

// A text after its length.
fn put_frame<T: ByteTarget>(target: &mut T, text: &str) -> Result<(), T::Error>
    ensures { OnOk result (Appends (T.contents target.old) (T.contents target.new) (frame text.now)) }
{
    put_number(target, text.len() as u64)?;
    target.put(text.as_bytes())
}

// Eight bytes, the highest first.
#[tactic(auto, unfolding(crate::specs::RecordBytes::number))]
fn put_number<T: ByteTarget>(target: &mut T, value: u64) -> Result<(), T::Error>
    ensures { OnOk result (Appends (T.contents target.old) (T.contents target.new) (number value)) }
{
    target.put(&value.to_be_bytes())
}

fn put_tag<T: ByteTarget>(target: &mut T, tag: u8) -> Result<(), T::Error>
    ensures { OnOk result (Appends (T.contents target.old) (T.contents target.new) (tag ∷ [])) }
{
    target.put(&[tag])
}
