//! Windows that are built of what streams hold, by a call `windows` of a case of streams: the moment up to which lines are
//! covered by a delete request, the windows' moment, and two queries of one selector with a `;` between them.
ghost use Rattle.std.specs.Prelude.{◌≡◌, true};

use crate::aggregate::push_partial;
use crate::given::{Read, moment_in, words_of};
use crate::output::push_value;
use crate::query::query_in;
use crate::streams::Asked;
use crate::trouble::Trouble;
use rl_deletes::{Deletion, Requests};
use rl_labels::{Limits, Ns};
use rl_parts::ReadFault;
use rl_pipeline::Meter;
use rl_plain::{Same, Shared};
use rl_query::{Query, Sieve};
use rl_windows::{Window, build};
use std::alloc::Global;
use std::mem;

// What is covered, and the moment of windows.
#[derive(Drop)]
struct Hiding {
    requests: Requests,
    moment: Ns,
}

/// Writes how many runs two windows take that are built, and what each shows.
pub(crate) fn push_windows(
    output: &mut String,
    streams: &mut Asked,
    rest: &str,
) -> Result<(), Trouble> {
    let (end, rest) = words_of(rest);
    let (moment, queries) = words_of(rest);
    let moment = moment_in(moment)?;
    let (first, second) = queries.split_once(" ; ").ok_or(Trouble::BadInput)?;
    let requests = covering(*output.allocator(), streams.limits(), moment_in(end)?)?;
    let hiding = Hiding { requests, moment };
    let ended = push_of(output, streams, &hiding, first, second);
    mem::forget(hiding);
    ended
}

// A request that covers all lines up to a moment.
fn covering(alloc: Global, limits: &Limits, end: Ns) -> Result<Requests, Trouble> {
    let sieve = Sieve::read(alloc, "{app=~\".+\"}")?;
    let start = moment_in("0")?;
    let deletion = Deletion {
        id: 1,
        selector: Shared::new(alloc, sieve)?,
        start,
        end,
        created: start,
    };
    let mut requests = Requests::new(alloc, limits);
    requests.receive(deletion).or(Err(Trouble::BadInput))?;
    Ok(requests)
}

fn push_of(
    output: &mut String,
    streams: &mut Asked,
    hiding: &Hiding,
    first: &str,
    second: &str,
) -> Result<(), Trouble> {
    let first = query_in(*output.allocator(), first)?;
    let ended = push_with(output, streams, hiding, &first, second);
    mem::forget(first);
    ended
}

fn push_with(
    output: &mut String,
    streams: &mut Asked,
    hiding: &Hiding,
    first: &Query,
    second: &str,
) -> Result<(), Trouble> {
    let second = query_in(*output.allocator(), second)?;
    let ended = push_both(output, streams, hiding, first, &second);
    mem::forget(second);
    ended
}

fn push_both(
    output: &mut String,
    streams: &mut Asked,
    hiding: &Hiding,
    first: &Query,
    second: &Query,
) -> Result<(), Trouble> {
    if !is_of_one(first, second) {
        return Err(Trouble::BadInput);
    }
    let mut meter = Meter::new();
    match built(streams, hiding, first, second, &mut meter) {
        Ok(mut windows) => {
            push_value(output, &meter.runs())?;
            push_each(output, &mut windows, &[first, second])
        }
        Err(fault) => push_value(output, &fault),
    }
}

fn is_of_one(first: &Query, second: &Query) -> bool
    ensures { result ≡ true → second.now.left.range.selector ≡ first.now.left.range.selector }
{
    let (one, other) = (&first.left.range.selector, &second.left.range.selector);
    other.is_same(one)
}

fn built(
    streams: &mut Asked,
    hiding: &Hiding,
    first: &Query,
    second: &Query,
    meter: &mut Meter,
) -> Result<Vec<Window>, ReadFault>
    requires { second.now.left.range.selector ≡ first.now.left.range.selector }
{
    let alloc = first.left.range.stages.allocator();
    let terms = [&first.left, &second.left];
    build(
        alloc,
        streams,
        &hiding.requests,
        &terms,
        hiding.moment,
        meter,
    )
}

fn push_each(
    output: &mut String,
    windows: &mut [Window],
    queries: &[&Query],
) -> Result<(), Trouble> {
    for (window, query) in windows.iter_mut().zip(queries) {
        let partial = window.partial()?;
        push_partial(output, query, partial.get())?;
    }
    Ok(())
}
