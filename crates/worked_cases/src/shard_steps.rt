//! Steps of a shard that are drawn, as texts.
use crate::chunks::Draws;
use std::alloc::{AllocError, Global};

// The questions of two groups: four terms each, of which some have one selector, side by side or apart. Now and then the first
// group asks others.
const FIRST: &str =
    "count_over_time({app=\"a\"} |= \"code\" [10s])\nbytes_over_time({app=\"a\"} | json [20s])\nrate({app!=\"\"} [15s])\nrate({app=\"a\"} |= \"code\" [40s])";

const EDITED: &str =
    "rate({app!=\"\"} [15s])\ncount_over_time({env=\"x\"} | json | code > 300 [20s])";

const SECOND: &str =
    "sum by (code) (count_over_time({app!=\"\",app!=\"c\"} | logfmt [25s]))\nbytes_over_time({app=\"b\"} != \"noon\" [12s])\nbytes_rate({app=\"b\"} != \"noon\" [30s])\nabsent_over_time({env=\"y\"} [5s])";

// An entry: its labels, its timestamp in nanoseconds, and its line.
#[derive(Clone, Copy)]
struct Pushed {
    labels: &'static str,
    timestamp: u64,
    line: &'static str,
}

/// Draws steps about a moment, which goes on.
#[derive(Drop)]
pub(crate) struct StepDraws {
    alloc: Global,
    draws: Draws,
    // In half seconds.
    moment: u64,
    last: Pushed,
    // How many delete requests there are, which have the numbers below.
    requests: u64,
}

impl StepDraws {
    pub(crate) fn new(alloc: Global, seed: u64) -> StepDraws {
        let mut draws = Draws { state: seed };
        let last = Pushed {
            labels: labels_of(draws.up_to(4)),
            timestamp: 50_000_000_000,
            line: line_of(draws.up_to(8)),
        };
        StepDraws {
            alloc,
            draws,
            moment: 100,
            last,
            requests: 0,
        }
    }

    /// A step.
    pub(crate) fn step(&mut self) -> Result<String, AllocError> {
        self.moment = self.moment.saturating_add(u64::from(self.draws.up_to(1)));
        match self.draws.up_to(31) {
            0..=16 => self.push(),
            17..=22 => self.collect(),
            23 => format!(in self.alloc; "cut"),
            24 => format!(in self.alloc; "flush"),
            25 | 26 => self.delete(),
            _ => self.turning(),
        }
    }

    // A step that hides no more, but shows or removes.
    fn turning(&mut self) -> Result<String, AllocError> {
        let (known, now) = (self.known(), self.now());
        match self.draws.up_to(4) {
            0 | 1 => format!(in self.alloc; "cancel {known}"),
            2 | 3 => format!(in self.alloc; "process {known} {now}"),
            _ => format!(in self.alloc; "retain {now}"),
        }
    }

    // The last entry again, or a new one.
    fn push(&mut self) -> Result<String, AllocError> {
        if self.draws.up_to(5) > 0 {
            self.last = self.entry();
        }
        let Pushed {
            labels,
            timestamp,
            line,
        } = self.last;
        format!(in self.alloc; "push {timestamp} {labels} {line}")
    }

    // An entry from some time before the moment, at times long before, or of the future.
    fn entry(&mut self) -> Pushed {
        let most = if self.draws.up_to(7) == 0 { 240 } else { 24 };
        Pushed {
            labels: labels_of(self.draws.up_to(4)),
            timestamp: self.about(most),
            line: line_of(self.draws.up_to(8)),
        }
    }

    // A question of a group, most often at the moment.
    fn collect(&mut self) -> Result<String, AllocError> {
        let t = match self.draws.up_to(9) {
            0 => self.about(40),
            1 => self.about(0),
            _ => self.now(),
        };
        match self.draws.up_to(15) {
            0 => format!(in self.alloc; "collect 0 {t} {EDITED}"),
            1..=7 => format!(in self.alloc; "collect 0 {t} {FIRST}"),
            _ => format!(in self.alloc; "collect 1 {t} {SECOND}"),
        }
    }

    // A new request, or one under a number that was given.
    fn delete(&mut self) -> Result<String, AllocError> {
        let number = if self.draws.up_to(7) == 0 {
            self.known()
        } else {
            self.requests = self.requests.saturating_add(1);
            self.requests
        };
        let start = self.about(60);
        let length = u64::from(self.draws.up_to(40)).saturating_mul(500_000_000);
        let end = start.saturating_add(length);
        let selector = selector_of(self.draws.up_to(6));
        let now = self.now();
        format!(in self.alloc; "delete {number} {start} {end} {now} {selector}")
    }

    // The number of one of the last requests, or one that no request has.
    fn known(&mut self) -> u64 {
        let latest = self.requests.saturating_add(1);
        latest.saturating_sub(u64::from(self.draws.up_to(8)))
    }

    fn now(&self) -> u64 {
        self.moment.saturating_mul(500_000_000)
    }

    // A time from so many half seconds before the moment to six seconds after it, at times a nanosecond off.
    fn about(&mut self, most: u32) -> u64 {
        let latest = self.moment.saturating_add(12);
        let earlier = u64::from(self.draws.up_to(most.saturating_add(12)));
        let whole = latest.saturating_sub(earlier).saturating_mul(500_000_000);
        match self.draws.up_to(7) {
            0 => whole.saturating_sub(1),
            1 => whole.saturating_add(1),
            _ => whole,
        }
    }
}

fn labels_of(number: u32) -> &'static str {
    match number {
        0 => "app=a,env=x",
        1 => "app=a,env=y",
        2 => "app=b,env=x",
        3 => "app=b",
        _ => "app=c,env=y",
    }
}

// Lines that are JSON, or pairs of logfmt, or neither.
fn line_of(number: u32) -> &'static str {
    match number {
        0 => "{\"code\":200}",
        1 => "{\"code\":500,\"path\":\"/a\"}",
        2 => "{\"code\":\"none\",\"app\":\"b\"}",
        3 => "{}",
        4 => "code=200",
        5 => "code=500 path=/a",
        6 => "code=\"500",
        7 => "failed at noon",
        _ => "{\"code\":",
    }
}

fn selector_of(number: u32) -> &'static str {
    match number {
        0 => "{app=\"a\"}",
        1 => "{app=\"a\"} |= \"500\"",
        2 => "{env=\"x\"}",
        3 => "{env!=\"\"} != \"code\"",
        4 => "{app!=\"\"} |= \"code\"",
        5 => "{app=\"b\"} |= \"noon\"",
        _ => "{app=\"none\"}",
    }
}
