//! Numbers and frames at the front of bytes.
ghost use Rattle.std.specs.Prelude.{◌≡◌};
ghost use Rattle.std.specs.Option.{option_map};
ghost use Rattle.rl_segments.specs.FrameReading.{frame_in, number_in};

// What stands after its length, and the bytes after that.
#[tactic(auto, unfolding(crate::specs::FrameReading::frame_in))]
pub(crate) fn frame_in(bytes: &[u8]) -> Option<(&[u8], &[u8])>
    ensures { option_map (λ parts. (parts.0.now, parts.1.now)) result ≡ frame_in bytes.now }
{
    let (len, rest) = number_in(bytes)?;
    if (rest.len() as u64) < len {
        return None;
    }
    Some(rest.split_at(len as usize))
}

// A number of eight bytes, and the bytes after it.
#[tactic(auto, unfolding(crate::specs::FrameReading::number_in))]
pub(crate) fn number_in(bytes: &[u8]) -> Option<(u64, &[u8])>
    ensures { option_map (λ parts. (parts.0, parts.1.now)) result ≡ number_in bytes.now }
{
    if bytes.len() < 8 {
        return None;
    }
    let (front, rest) = bytes.split_at(8);
    let number = u64::from_be_bytes([
        front[0], front[1], front[2], front[3], front[4], front[5], front[6], front[7],
    ]);
    Some((number, rest))
}
