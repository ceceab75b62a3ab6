//! Tests of what neither cases nor scripts can show: writers, readers and sinks that fail or refuse by plan, counts of
//! turns, short and interrupted writes and reads, and lack of memory.
//!
//! - `tests_sinks`: what recorders and tails write when writes fail. `tests_worlds`: sinks in a world that fail, refuse and
//!   catch up.
//! - `tests_reading`: readers of an input, turn by turn. `tests_sessions`: a session whose output or recorder fails.
//! - `tests_stores`: stores in memory and in folders, and what spoils them. `tests_streams`: streams whose store fails.
//!   `tests_deletes`: a shard whose store fails while lines are removed.
//! - `tests_rulers`: callers of a ruler in threads, shards that do not decide a step of all, and how a ruler is closed.
//!   `tests_callers`: what these need.
//! - `tests_memory`: calls that run out of memory, made again. `tests_given`: what several of these need.
#![tactic(auto)]

#[cfg(test)]
mod tests_callers;
#[cfg(test)]
mod tests_deletes;
#[cfg(test)]
mod tests_given;
#[cfg(test)]
mod tests_memory;
#[cfg(test)]
mod tests_reading;
#[cfg(test)]
mod tests_rulers;
#[cfg(test)]
mod tests_sessions;
#[cfg(test)]
mod tests_sinks;
#[cfg(test)]
mod tests_stores;
#[cfg(test)]
mod tests_streams;
#[cfg(test)]
mod tests_worlds;
