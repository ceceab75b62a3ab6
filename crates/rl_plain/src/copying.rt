//! Copies of plain data.
ghost use Rattle.std.specs.Prelude.{◌≡◌, IfOk, IsOk};

use crate::list::PlainList;
use crate::text::PlainText;
use std::alloc::AllocError;

/// Plain data, whose copy is the value. It takes the memory of the allocators that the value keeps, and answers
/// `AllocError` where that has none.
pub trait TryCopy: Drop {
    /// The copy.
    fn try_copy(&self) -> Result<Self, AllocError>
        ensures { IfOk result (λ copy. copy ≡ self.now) };
}

impl TryCopy for bool {
    /// Takes no memory, and is never refused.
    fn try_copy(&self) -> Result<Self, AllocError>
        ensures copy { IfOk result (λ copy. copy ≡ self.now) }
        ensures made { IsOk result }
    {
        Ok(*self)
    }
}

impl TryCopy for u64 {
    /// Takes no memory, and is never refused.
    fn try_copy(&self) -> Result<Self, AllocError>
        ensures copy { IfOk result (λ copy. copy ≡ self.now) }
        ensures made { IsOk result }
    {
        Ok(*self)
    }
}

impl<T: TryCopy> TryCopy for Option<T> {
    fn try_copy(&self) -> Result<Self, AllocError> {
        match self {
            None => Ok(None),
            Some(value) => Ok(Some(value.try_copy()?)),
        }
    }
}

impl<A: TryCopy, B: TryCopy> TryCopy for (A, B) {
    fn try_copy(&self) -> Result<Self, AllocError> {
        let first = self.0.try_copy()?;
        let second = self.1.try_copy()?;
        Ok((first, second))
    }
}

impl<T: TryCopy> TryCopy for PlainList<T> {
    fn try_copy(&self) -> Result<Self, AllocError> {
        let items = self.as_slice();
        let mut copies = Vec::with_capacity(self.allocator(), items.len())?;
        for item in items {
            copies.push(item.try_copy()?)?;
        }
        Ok(PlainList::from_vec(copies))
    }
}

impl TryCopy for PlainText {
    fn try_copy(&self) -> Result<Self, AllocError> {
        PlainText::from_str(self.allocator(), self.as_str())
    }
}
