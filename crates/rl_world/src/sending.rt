//! Books may be sent to another thread.

use crate::book::Book;
use rl_plain::sending::is_sendable;
use rl_sinks::Sink;

/// A book is such a value where its sinks are: that is all that this says.
pub fn book_is_sendable<S: Sink + Send>(book: &Book<S>) {
    is_sendable(book);
}
