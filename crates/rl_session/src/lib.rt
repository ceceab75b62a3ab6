//! Sessions: rules, a mark and commands as they are read, and what the commands print.
//!
//! - `front`: `read_front`, what stands before the mark and after it. `push`: `PushReader` and `read_push`, entries from JSON;
//!   `known_labels`: the label sets that it keeps.
//! - `engine`: `Engine`, what evaluates the groups; `Closes`, one whose sinks can be closed. `world_engine`: `WorldEngine`, a world
//!   on one thread. `pumping`: `Pumping`, an engine whose sinks catch up after each evaluation.
//! - `command`: `Command`, one line. `edit`: the group of an edit. `asking`: what commands ask of an engine, and their results.
//! - `output`: what is printed of that. `printer`: `Printer`, what it is printed on. `session`: `run_lines`, many lines; `Session`,
//!   lines and the close after them.
//! - `names`: the names of faults and refusals.
#![tactic(auto)]

mod asking;
pub mod command;
mod edit;
pub mod engine;
pub mod front;
mod known_labels;
pub mod names;
pub mod output;
pub mod printer;
pub mod pumping;
pub mod push;
pub mod session;
mod unwritten;
pub mod world_engine;

pub use command::{Command, is_blank, read_command, read_in_block};
pub use engine::{Closes, Engine, Partly};
pub use front::{Commands, Front, FrontError, FrontFault, read_front};
pub use printer::Printer;
pub use pumping::Pumping;
pub use push::{PushError, PushFault, PushReader, read_push};
pub use session::{
    RunError, Session, Status, Stopped, StoppedAt, answer_in_block, end_closed, end_not_closed,
    run_lines,
};
pub use world_engine::WorldEngine;
