//! Slots of running windows: what a shard keeps of the ranges that groups ask it about.
//!
//! A group asks again and again about the same terms. Its slot has a window for each range of them, lines that come and go
//! change the windows that need them, and a later question moves the windows on. Nothing here knows a store.
//!
//! - `range_window`: `RangeWindow`, a window with the code of its range.
//! - `change`: `Change`, an element that a line adds to one window of a slot; `AddFault`, why changes are not added.
//! - `slot`: `Slot`, the windows of a group's terms. `slots`: `Slots`, those of all groups. `answer`: `Answer`, what they answer.
//! - `window_index`: `WindowIndex`, where a window is. `table`: which windows select a stream, kept for its later lines. `asked`: `AskedSlots`,
//!   slots that are asked about many lines while they stay as they are.
//! - `sending`: slots may be sent to another thread.
#![tactic(auto)]

pub mod answer;
pub mod asked;
pub mod change;
pub mod range_window;
pub mod sending;
pub mod slot;
pub mod slots;
pub mod table;
pub mod window_index;

pub use answer::Answer;
pub use asked::AskedSlots;
pub use change::{AddFault, Change};
pub use range_window::RangeWindow;
pub use slot::Slot;
pub use slots::Slots;
pub use window_index::WindowIndex;
