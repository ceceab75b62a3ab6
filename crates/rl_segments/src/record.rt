//! Records read from their bytes.
ghost use Rattle.std.specs.Prelude.{◌≡◌, ◌<◌, ◌^◌, length, IfOk, MatchResult};
ghost use Rattle.rl_plain.specs.Answers.{Gives};
ghost use Rattle.rl_plain.specs.declared.refusal.OrMemory.TheVariants.{Memory};
ghost use Rattle.rl_records.specs.RecordBytes.{record_bytes};
ghost use Rattle.rl_records.specs.declared.record.Record.{Record};
ghost use Rattle.rl_segments.specs.Forms.{record_form};
ghost use Rattle.rl_segments.specs.RecordReading.{record_in};
ghost use Rattle.rl_segments.specs.Records.{IsInMemory};

use crate::fault::{RecordError, RecordFault};
use crate::replies::reply_at;
use crate::steps::step_at;
use rl_records::{Record, record_bytes};
use std::alloc::Global;

/// The record that the bytes are, all of them. Memory comes also for a pattern that no longer has room.
pub fn record_read(alloc: Global, bytes: &[u8]) -> Result<Record, RecordError>
    ensures read { IfOk result (λ it. record_bytes it ≡ bytes.now) }
    ensures again { (it : Record) → IsInMemory it → bytes.now ≡ record_bytes it → MatchResult result (λ same. same ≡ it) (λ error. error ≡ Memory) }
{
    let it = match record_in(alloc, bytes) {
        Ok(it) => it,
        Err(error) => return Err(error),
    };
    let written = record_bytes(alloc, &it)?;
    if written.as_slice() == bytes {
        return Ok(it);
    }
    Err(RecordFault::NotARecord.into())
}

// A step, and then its reply, and nothing after it.
#[tactic(auto, unfolding(crate::specs::RecordReading::record_in))]
fn record_in(alloc: Global, bytes: &[u8]) -> Result<Record, RecordError>
    ensures read { Gives record_form result (record_in bytes.now) }
    ensures short { length bytes.now < 2 ^ 64 }
{
    let _len = bytes.len();
    let (step, rest) = step_at(alloc, bytes)?;
    let (reply, rest) = reply_at(alloc, rest)?;
    if !rest.is_empty() {
        return Err(RecordFault::NotARecord.into());
    }
    Ok(Record { step, reply })
}
