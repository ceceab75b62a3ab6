//! Rules: groups read from TOML, and what a rule makes of the outcome of its query.
//!
//! `read_rules` gives exactly the groups that the document has, or its lowest fault. `step_rule` gives the samples of a
//! recording rule or the alerts of an alerting one, or why it failed, and `KeptRule` does so at one evaluation after the other.
//! `hand_on` gives the rules of an edited group the alerts of those before that are equal.
//!
//! - `rule`: `Group`, `Rule`. `alert`: `Alert`, `AlertState`. `evaluation`: `Evaluation`, `RuleResult`, `RuleOutcome`, `Cause`.
//! - `fault`: why a rule file is refused. `reading`: `read_rules`. `stepping`: `step_rule`. `naming`: `LabelSetCache`, which
//!   gives final label sets. `kept`: `KeptRule`, what is kept of a rule. `editing`: `hand_on`.
//! - `sending`: what may be sent to another thread, and looked at from two.
#![tactic(auto)]

pub mod alert;
mod alerting;
pub mod editing;
pub mod evaluation;
pub mod fault;
pub mod kept;
mod names;
pub mod naming;
pub mod reading;
pub mod rule;
pub mod sending;
mod shape;
pub mod stepping;
mod values;

pub use alert::{Alert, AlertState};
pub use editing::hand_on;
pub use evaluation::{Cause, Evaluation, RuleOutcome, RuleResult};
pub use fault::{RulesError, RulesFault};
pub use kept::KeptRule;
pub use naming::LabelSetCache;
pub use reading::read_rules;
pub use rule::{Group, Rule, RuleKind};
pub use stepping::step_rule;
