//! Which of several shards a stream goes to.
ghost use Rattle.std.specs.Prelude.{◌≡◌, ◌≤◌};
ghost use Rattle.std.specs.List.{sum};
ghost use Rattle.rl_labels.specs.Routing.{shard_of};

use crate::labels::Labels;

/// Which of the shards a stream goes to, counted from 0.
pub fn shard_of(labels: &Labels, shards: usize) -> usize
    requires { 1 ≤ shards }
    ensures { result ≡ shard_of labels.now shards }
{
    if shards == 1 {
        return 0;
    }
    (sum_of(labels.as_text().as_bytes()) % shards as u128) as usize
}

// No more bytes than there may be add up to a number of 128 bits.
fn sum_of(bytes: &[u8]) -> u128
    ensures { result ≡ sum bytes.now }
{
    let mut total = 0;
    for byte in bytes {
        total += *byte as u128;
    }
    total
}
