//! Probes for what may cross to another thread.

/// Takes a value that may be sent to another thread, and does nothing.
pub fn is_sendable<T: Send>(_value: &T) {}

/// Takes a value that threads may share, and does nothing.
pub fn is_shareable<T: Send + Sync>(_value: &T) {}
