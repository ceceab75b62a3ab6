//! Evaluations offered to sinks.
ghost use Rattle.std.specs.Prelude.{◌≡◌, List, ◌+◌, ◌≤◌, ◌<◌, ◌^◌, ◌++◌, map, length, vec_len, vec_capacity};
ghost use Rattle.std.specs.List.{AllByRecursion};
ghost use Rattle.rl_sinks.specs.SinkState.{SinkState};
ghost use Rattle.rl_world.specs.Closed.{HasAnswered};
ghost use Rattle.rl_world.specs.Offering.{TookPrefix, Offered, AllOffered, is_behind, behind_of};
ghost use Rattle.rl_world.specs.WorldRun.{ArePumped};

use rl_plain::Shared;
use rl_rules::Evaluation;
use rl_sinks::Sink;

/// Pumps each sink, then offers each all that it has not taken, and adds the numbers of those that refused.
pub(crate) fn catch_up_all<S: Sink>(
    sinks: &mut [S],
    evaluations: &[Shared<Evaluation>],
    behind: &mut Vec<u64>,
)
    requires few { length evaluations.now < 2 ^ 63 }
    requires prefixes { AllByRecursion (TookPrefix evaluations.now) (map S.state sinks.old) }
    requires room { vec_len behind.old + length sinks.old ≤ vec_capacity behind.old }
    ensures offered { (ready : List SinkState) × ArePumped (map S.state sinks.old) ready × AllByRecursion (HasAnswered S.state S.pump_answers) ready × AllOffered evaluations.now ready (map S.state sinks.new) }
    ensures behind { behind.new.items ≡ behind.old.items ++ behind_of evaluations.now (map S.state sinks.new) }
{
    pump_all(sinks);
    offer_all(sinks, evaluations, behind);
}

// Pumps each sink. One that fails keeps what it could not write.
fn pump_all<S: Sink>(sinks: &mut [S])
    ensures pumped { ArePumped (map S.state sinks.old) (map S.state sinks.new) }
    ensures answers { AllByRecursion (HasAnswered S.state S.pump_answers) (map S.state sinks.new) }
{
    for number in 0..sinks.len() {
        let _ = sinks[number].pump();
    }
}

/// Offers each sink all that it has not taken, and adds the numbers of those that refused.
pub(crate) fn offer_all<S: Sink>(
    sinks: &mut [S],
    evaluations: &[Shared<Evaluation>],
    behind: &mut Vec<u64>,
)
    requires few { length evaluations.now < 2 ^ 63 }
    requires prefixes { AllByRecursion (TookPrefix evaluations.now) (map S.state sinks.old) }
    requires room { vec_len behind.old + length sinks.old ≤ vec_capacity behind.old }
    ensures offered { AllOffered evaluations.now (map S.state sinks.old) (map S.state sinks.new) }
    ensures behind { behind.new.items ≡ behind.old.items ++ behind_of evaluations.now (map S.state sinks.new) }
{
    for number in 0..sinks.len() {
        if offer(&mut sinks[number], evaluations) {
            behind.push_reserved(number as u64);
        }
    }
}

// Offers what the sink has not taken, until it refuses. Whether it did.
fn offer<S: Sink>(sink: &mut S, evaluations: &[Shared<Evaluation>]) -> bool
    requires few { length evaluations.now < 2 ^ 63 }
    requires prefix { TookPrefix evaluations.now (S.state sink.old) }
    ensures offered { Offered evaluations.now (S.state sink.old) (S.state sink.new) }
    ensures refused { result ≡ is_behind evaluations.now (S.state sink.new) }
{
    let mut next = sink.count() as usize;
    while next < evaluations.len() {
        if sink.take(evaluations[next].get()).is_err() {
            return true;
        }
        next += 1;
    }
    false
}
