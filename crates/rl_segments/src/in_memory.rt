//! What the types of a record see to, as a clause says it.
ghost use Rattle.std.specs.Prelude.{IsTrue};
ghost use Rattle.std.specs.FinMap.{entries};
ghost use Rattle.std.specs.List.{AllByRecursion};
ghost use Rattle.std.specs.Str.{is_utf8};
ghost use Rattle.rl_segments.specs.Records.{AreTerms, AreTextual, IsDeletion, IsEntry, IsInMemory, IsMoment, IsNumber, IsPartial, IsReply, IsStep, IsText, IsTextual, IsTotal};

use rl_aggregate::{Partial, Totals, Volume};
use rl_deletes::Deletion;
use rl_labels::{Entry, Labels, Ns};
use rl_plain::{PlainText, Shared};
use rl_records::{Record, ShardReply, ShardStep, SieveText, Terms};

/// Says of a record in memory what `again` asks of it. Looks at each total of each partial, and takes no memory.
pub fn is_in_memory(record: &Record)
    ensures { IsInMemory record.now }
{
    is_step(&record.step);
    is_reply(&record.reply);
}

fn is_step(step: &ShardStep)
    ensures { IsStep step.now }
{
    match step {
        ShardStep::Push(entry) => is_entry(entry.get()),
        ShardStep::Cut | ShardStep::Flush => {}
        ShardStep::Delete(deletion) => is_deletion(deletion),
        ShardStep::Cancel { id } => is_number(*id),
        ShardStep::Process { id, now } => {
            is_number(*id);
            is_moment(*now);
        }
        ShardStep::Retain { now } => is_moment(*now),
        ShardStep::Collect { slot, terms, t } => {
            is_number(*slot);
            are_terms(terms);
            is_moment(*t);
        }
    }
}

fn is_number(_number: u64)
    ensures { IsNumber _number }
{}

fn is_moment(moment: Ns)
    ensures { IsMoment moment }
{
    let _nanoseconds = moment.get();
}

fn is_text(_text: &str)
    ensures { IsText _text.now }
{}

fn is_entry(entry: &Entry)
    ensures { IsEntry entry.now }
{
    are_textual(&entry.labels);
    is_moment(entry.timestamp);
    is_text(entry.line.as_str());
}

// The names and the values of a label set are texts.
fn are_textual(labels: &Labels)
    ensures { AreTextual labels.now }
{
    let _all = labels.pairs().iter().all(|(name, value)| {
        is_text(name.as_str());
        is_text(value.as_str());
        true
    });
}

fn is_deletion(deletion: &Deletion<SieveText>)
    ensures { IsDeletion deletion.now }
{
    is_number(deletion.id);
    is_text(deletion.selector.text());
    is_moment(deletion.start);
    is_moment(deletion.end);
    is_moment(deletion.created);
}

fn are_terms(terms: &Terms)
    ensures { AreTerms terms.now }
{
    let texts = terms.texts();
    is_number(texts.len() as u64);
    are_texts(texts);
}

fn are_texts(texts: &[PlainText])
    ensures { AllByRecursion IsText texts.now }
{
    let _all = texts.iter().all(|text| {
        is_text(text.as_str());
        true
    });
}

fn is_reply(reply: &ShardReply)
    ensures { IsReply reply.now }
{
    match reply {
        ShardReply::Expired { horizon } => is_moment(*horizon),
        ShardReply::TooFarBehind { newest } => is_moment(*newest),
        ShardReply::Collected(partials) => {
            is_number(partials.len() as u64);
            are_partials(partials.as_slice());
        }
        _ => {}
    }
}

fn are_partials(partials: &[Shared<Partial>])
    ensures { AllByRecursion IsPartial partials.now }
{
    let _all = partials.iter().all(|partial| {
        is_partial(partial.get());
        true
    });
}

fn is_partial(partial: &Partial)
    ensures { IsPartial partial.now }
{
    is_number(partial.errors);
    is_number(partial.totals.len() as u64);
    are_totals(&partial.totals);
}

fn are_totals(totals: &Totals)
    ensures { AllByRecursion IsTotal (entries totals.now) }
{
    for (labels, volume) in totals.iter() {
        is_total(labels, volume);
    }
}

fn is_total(labels: &Labels, volume: &Volume)
    ensures { IsTotal (labels.now, volume.now) }
{
    are_textual(labels);
    is_number(volume.count);
    is_number(volume.bytes);
}
