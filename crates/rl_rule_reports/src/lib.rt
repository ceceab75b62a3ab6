//! Reports of rule files: what a ruler takes, what of it looks like a mistake, and each fault of what it does not take.
//!
//! `report_of` gives the report of a rule file. It says that the file is taken only where a ruler reads groups in it, and that
//! it is not taken only where a ruler reads none, or a lint is asked to count as a fault.
//!
//! - `report`: what is reported of a rule file. `print`: the groups that are asked for beside it.
//! - `faults`: each fault of a document, table by table. `keys`: what its tables have. `values`: what stands at a key.
//!   `names`: names and labels. `queries`: the query of a rule. `no_toml`: a text that is no document.
//! - `hint` and `advice`: what a ruler has near a query that it refuses. `stop`: the tokens around the fault. `opened`: what is
//!   not closed. `amounts`: numbers and signs. `pattern`: a regular expression that is none. `near`: words that are nearly equal.
//! - `lint`: what is taken and looks like a mistake. `meaning`: rules that give something else than they seem to. `doubt`: lines
//!   that would fail a rule. `fraction`: tests that no fraction of JSON passes. `grouping`: labels that samples have.
//! - `location`: where a fault is. `layout`: the lines of a document. `findings`: what is reported so far.
#![tactic(auto)]

mod advice;
mod amounts;
mod doubt;
mod faults;
mod findings;
mod fraction;
mod grouping;
mod hint;
mod keys;
mod layout;
mod lint;
mod location;
mod meaning;
mod names;
mod near;
mod no_toml;
mod opened;
mod pattern;
mod print;
mod queries;
mod report;
mod stop;
mod values;

pub use findings::{Findings, Manner, OutOfMemory, Report};
pub use location::{Location, push_location};
pub use near::is_near;
pub use no_toml::Standing;
pub use queries::push_query_fault;
pub use report::{ending, push_counts, push_refusal, push_rules, report_of};
pub use values::push_name;
