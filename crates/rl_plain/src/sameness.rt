//! Sameness of plain data: equal in all that contracts see.
ghost use Rattle.std.specs.Prelude.{◌≡◌, ◌↔◌, IsTrue};

use crate::list::PlainList;
use crate::text::PlainText;

/// Plain data of which two values can be compared without memory.
pub trait Same {
    /// Whether the two values are one.
    fn is_same(&self, other: &Self) -> bool
        ensures { IsTrue result ↔ (self.now ≡ other.now) };
}

impl Same for bool {
    fn is_same(&self, other: &Self) -> bool {
        self == other
    }
}

impl Same for u64 {
    fn is_same(&self, other: &Self) -> bool {
        self == other
    }
}

impl<T: Same> Same for Option<T> {
    fn is_same(&self, other: &Self) -> bool {
        match (self, other) {
            (None, None) => true,
            (Some(left), Some(right)) => left.is_same(right),
            _ => false,
        }
    }
}

impl<A: Same, B: Same> Same for (A, B) {
    fn is_same(&self, other: &Self) -> bool {
        self.0.is_same(&other.0) && self.1.is_same(&other.1)
    }
}

impl<T: Same> Same for PlainList<T> {
    fn is_same(&self, other: &Self) -> bool {
        let (left, right) = (self.as_slice(), other.as_slice());
        if left.len() != right.len() {
            return false;
        }
        for (index, item) in left.iter().enumerate() {
            if !item.is_same(&right[index]) {
                return false;
            }
        }
        true
    }
}

impl Same for PlainText {
    fn is_same(&self, other: &Self) -> bool {
        self.as_str() == other.as_str()
    }
}
