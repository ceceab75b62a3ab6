//! A value that its copies share.
ghost use Rattle.std.specs.Prelude.{◌≡◌, IfOk, IfSome};

use crate::copying::TryCopy;
use crate::sameness::Same;
use std::alloc::{AllocError, Global};
use std::marker::Model;
use std::sync::Arc;

/// A value in a block of its own, with an atomic count of its owners. It changes only while it has one owner.
#[derive(Drop)]
pub struct Shared<T> {
    value: Arc<T>,
}

impl<T> Model for Shared<T> {
    ghost use Rattle.std.specs.Arc.{arc_value};

    ghost Value = { T };

    ghost view = { λ a. arc_value a.value };
}

impl<T> Shared<T> {
    ghost use Rattle.std.specs.Borrow.{sem};
    ghost use Rattle.rl_plain.specs.Sharing.{lends_value};

    /// The value, borrowed.
    pub fn get(&self) -> &T
        ensures { result.now ≡ self.now }
    {
        &self.value
    }

    /// The value, to be changed, where no copy shares it.
    pub fn get_mut(&mut self) -> Option<&mut T>
        ensures* writes_back { sem 𝓛 (lends_value T.row self.entry result) }
        ensures value { IfSome result (λ value. value.now ≡ self.old) }
    {
        Arc::get_mut(&mut self.value)
    }
}

impl<T: Drop> Shared<T> {
    /// Puts the value where copies can share it.
    pub fn new(alloc: Global, value: T) -> Result<Self, AllocError>
        ensures { IfOk result (λ shared. shared ≡ value) }
    {
        let value = Arc::new(alloc, value)?;
        Ok(Shared { value })
    }
}

impl<T: Drop> TryCopy for Shared<T> {
    /// One owner more, without memory. It is refused only where more owners live than can be counted; no clause says
    /// so, because the contract of `Arc` does not say when it refuses one more.
    fn try_copy(&self) -> Result<Self, AllocError> {
        let value = Arc::try_clone(&self.value)?;
        Ok(Shared { value })
    }
}

impl<T: Same> Same for Shared<T> {
    fn is_same(&self, other: &Self) -> bool {
        self.get().is_same(other.get())
    }
}
