//! The names under which faults and refusals are printed.
ghost use Rattle.std.specs.Prelude.{◌≡◌};
ghost use Rattle.std.specs.Option.{option_map};
ghost use Rattle.rl_session.specs.Names.{query_error_name, push_error_name, front_fault_name, rules_fault_name, rules_error_name, edit_refusal_name, book_fault_name, refusal_name, shard_refusal, push_refusal};

use crate::edit::EditRefusal;
use crate::front::FrontFault;
use crate::push::{PushError, PushFault};
use rl_query::{QueryError, QueryFault};
use rl_rules::{RulesError, RulesFault};
use rl_shard::ShardReply;
use rl_world::{BookFault, Refusal};

/// The name of a push body's fault.
pub fn push_error_name(error: PushError) -> &'static str
    ensures { result.now ≡ push_error_name error }
{
    match error {
        PushError::Fault(PushFault::NotJson) => "NotJson",
        PushError::Fault(PushFault::Shape) => "Shape",
        PushError::Fault(PushFault::Label) => "Label",
        PushError::Fault(PushFault::Time) => "Time",
        PushError::Fault(PushFault::Line) => "Line",
        PushError::Fault(PushFault::Metadata) => "Metadata",
        PushError::Memory => "Memory",
    }
}

// The name of the fault of a selector.
pub(crate) fn query_error_name(error: QueryError) -> &'static str
    ensures { result.now ≡ query_error_name error }
{
    match error {
        QueryError::Fault(QueryFault::Syntax(_)) => "Syntax",
        QueryError::Fault(QueryFault::Unsupported(_)) => "Unsupported",
        QueryError::Fault(QueryFault::NoRealMatcher) => "NoRealMatcher",
        QueryError::Fault(QueryFault::BadRange) => "BadRange",
        QueryError::Fault(QueryFault::BadRegex) => "BadRegex",
        QueryError::Fault(QueryFault::TooDeep) => "TooDeep",
        QueryError::Fault(QueryFault::TwoParsers) => "TwoParsers",
        QueryError::Memory => "Memory",
    }
}

/// The name of an input's fault; that of a rule file's own fault where it has one.
pub fn front_fault_name(fault: FrontFault) -> &'static str
    ensures { result.now ≡ front_fault_name fault }
{
    match fault {
        FrontFault::ReadFault => "ReadFault",
        FrontFault::TooLong => "TooLong",
        FrontFault::NotText => "NotText",
        FrontFault::NoMark => "NoMark",
        FrontFault::Rules(fault) => rules_fault_name(fault),
    }
}

fn rules_fault_name(fault: RulesFault) -> &'static str
    ensures { result.now ≡ rules_fault_name fault }
{
    match fault {
        RulesFault::BadToml => "BadToml",
        RulesFault::UnknownKey => "UnknownKey",
        RulesFault::MissingKey => "MissingKey",
        RulesFault::BadQuery { .. } => "BadQuery",
        RulesFault::BadName => "BadName",
        RulesFault::SameGroup => "SameGroup",
        RulesFault::TooMany => "TooMany",
    }
}

// The name under which an edit was refused.
pub(crate) fn edit_refusal_name(refusal: EditRefusal) -> &'static str
    ensures { result.now ≡ edit_refusal_name refusal }
{
    match refusal {
        EditRefusal::Rules(error) => rules_error_name(error),
        EditRefusal::NotOneGroup => "NotOneGroup",
        EditRefusal::NoSuchGroup => "NoSuchGroup",
        EditRefusal::Engine(refusal) => refusal_name(refusal),
    }
}

fn rules_error_name(error: RulesError) -> &'static str
    ensures { result.now ≡ rules_error_name error }
{
    match error {
        RulesError::Fault(fault) => rules_fault_name(fault),
        RulesError::Memory => "Memory",
    }
}

/// The name of a refusal; that of the book's fault where it has one.
pub fn refusal_name(refusal: Refusal) -> &'static str
    ensures { result.now ≡ refusal_name refusal }
{
    match refusal {
        Refusal::NoSuch => "NoSuch",
        Refusal::Book(fault) => book_fault_name(fault),
        Refusal::JournalFull => "JournalFull",
        Refusal::Fault => "Fault",
        Refusal::Damaged => "Damaged",
        Refusal::NumbersSpent => "NumbersSpent",
        Refusal::Memory => "Memory",
    }
}

fn book_fault_name(fault: BookFault) -> &'static str
    ensures { result.now ≡ book_fault_name fault }
{
    match fault {
        BookFault::Busy => "Busy",
        BookFault::MomentNotLater { .. } => "MomentNotLater",
        BookFault::NotOpen => "NotOpen",
        BookFault::AlreadyGathered => "AlreadyGathered",
        BookFault::Incomplete => "Incomplete",
        BookFault::SessionFull => "SessionFull",
    }
}

/// The name under which the push of an entry was refused, if it was.
pub fn push_refusal(answer: &Result<ShardReply, Refusal>) -> Option<&'static str>
    ensures { option_map (λ name. name.now) result ≡ push_refusal answer.now }
{
    match answer {
        Ok(reply) => shard_refusal(reply),
        Err(refusal) => Some(refusal_name(*refusal)),
    }
}

/// The name under which a shard refused an entry or a request, if it did.
pub fn shard_refusal(reply: &ShardReply) -> Option<&'static str>
    ensures { option_map (λ name. name.now) result ≡ shard_refusal reply.now }
{
    match reply {
        ShardReply::Expired { .. } => Some("Expired"),
        ShardReply::TooFarBehind { .. } => Some("TooFarBehind"),
        ShardReply::Full => Some("Full"),
        ShardReply::IdTaken => Some("IdTaken"),
        ShardReply::RequestsFull => Some("RequestsFull"),
        ShardReply::NoSuchRequest => Some("NoSuchRequest"),
        ShardReply::AlreadyProcessed => Some("AlreadyProcessed"),
        ShardReply::WasCancelled => Some("WasCancelled"),
        ShardReply::TooEarly => Some("TooEarly"),
        ShardReply::Accepted | ShardReply::Done | ShardReply::Collected(_) => None,
    }
}
