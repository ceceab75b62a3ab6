//! Durations of ranges, which rule files have too.
ghost use Rattle.std.specs.Prelude.{◌≡◌, ◌+◌, ◌≤◌, IfSome, IsTrue};
ghost use Rattle.std.specs.Option.{option_map};
ghost use Rattle.std.specs.Char.{is_ascii_digit};
ghost use Rattle.rl_query.specs.Durations.{digit_after, duration_of};
ghost use Rattle.rl_query.specs.Limits.{capped, longest_range};
ghost use Rattle.rl_query.specs.Tables.{unit_of};

/// The longest range, in seconds: 30 days.
pub const LONGEST_RANGE: u64 = 2_592_000;

// The seconds of a unit, and its rank.
fn unit_of(byte: u8) -> Option<(u64, u64)>
    ensures unit { result ≡ unit_of byte }
    ensures fits { IfSome result (λ unit. (unit.0 ≤ 604800) × (unit.1 ≤ 5)) }
{
    match byte {
        b'w' => Some((604_800, 1)),
        b'd' => Some((86_400, 2)),
        b'h' => Some((3_600, 3)),
        b'm' => Some((60, 4)),
        b's' => Some((1, 5)),
        _ => None,
    }
}

/// The seconds of a duration in `w d h m s`, if it is one. A longer one than the longest range counts as one second above that.
pub fn duration_of(bytes: &[u8]) -> Option<u64>
    ensures { result ≡ option_map capped (duration_of bytes.now) }
{
    let mut seconds = 0;
    let mut rank = 0;
    let mut digits = None;
    for byte in bytes {
        if byte.is_ascii_digit() {
            digits = Some(digit_after(digits, *byte));
        } else {
            let number = digits?;
            let (unit, next) = unit_of(*byte)?;
            if next <= rank {
                return None;
            }
            seconds = (seconds + number * unit).min(LONGEST_RANGE + 1);
            rank = next;
            digits = None;
        }
    }
    match digits {
        None => Some(seconds),
        Some(_) => None,
    }
}

fn digit_after(digits: Option<u64>, byte: u8) -> u64
    requires digit { IsTrue (is_ascii_digit byte) }
    requires capped { IfSome digits (λ n. n ≤ longest_range + 1) }
    ensures value { result ≡ capped (digit_after digits byte) }
    ensures fits { result ≤ longest_range + 1 }
{
    let digit = u64::from(byte - b'0');
    match digits {
        None => digit,
        Some(number) => (10 * number + digit).min(LONGEST_RANGE + 1),
    }
}
