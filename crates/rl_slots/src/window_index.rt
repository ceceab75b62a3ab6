//! Where windows are.

/// Where a window is: the index of its slot, and its own index there.
#[derive(Clone, Copy)]
pub struct WindowIndex {
    pub slot: usize,
    pub window: usize,
}
