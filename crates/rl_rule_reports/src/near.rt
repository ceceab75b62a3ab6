//! Words that are nearly equal.

// A shorter word is one letter away from too many.
const SHORTEST: usize = 3;

/// Whether the words differ by case alone, or by one letter: another, one more or less, or two that are swapped.
pub fn is_near(one: &str, other: &str) -> bool {
    one.eq_ignore_ascii_case(other) || is_one_apart(one.as_bytes(), other.as_bytes())
}

fn is_one_apart(one: &[u8], other: &[u8]) -> bool {
    let (less, more) = (one.len().min(other.len()), one.len().max(other.len()));
    let front = same_front(one, other);
    let same = front.saturating_add(same_back(one, other));
    if more < SHORTEST {
        false
    } else if less == more {
        same.saturating_add(1) >= more
            || (same.saturating_add(2) >= more && changed_locations(front, one, other))
    } else {
        more.saturating_sub(less) == 1 && same >= less
    }
}

// How many bytes at their fronts are equal.
fn same_front(one: &[u8], other: &[u8]) -> usize {
    let mut count = 0usize;
    for (byte, same) in one.iter().zip(other.iter()) {
        if byte != same {
            return count;
        }
        count = count.saturating_add(1);
    }
    count
}

// How many bytes at their ends are equal.
fn same_back(one: &[u8], other: &[u8]) -> usize {
    let mut count = 0usize;
    for (byte, same) in one.iter().rev().zip(other.iter().rev()) {
        if byte != same {
            return count;
        }
        count = count.saturating_add(1);
    }
    count
}

// Whether the byte at an index and the next one are swapped.
fn changed_locations(location: usize, one: &[u8], other: &[u8]) -> bool {
    let next = location.saturating_add(1);
    one.get(location) == other.get(next) && one.get(next) == other.get(location)
}
