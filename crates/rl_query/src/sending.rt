//! Queries and sieves may be sent to another thread, and looked at from two.

use crate::filter::Sieve;
use crate::query::{Query, Term};
use rl_plain::sending::is_shareable;
use rl_plain::{PlainList, Shared};

/// Queries, terms and sieves are such values, and lists of terms that are shared: that is all that this says.
pub fn query_is_shareable(
    query: &Query,
    term: &Term,
    terms: &Shared<PlainList<Term>>,
    sieve: &Sieve,
) {
    is_shareable(query);
    is_shareable(term);
    is_shareable(terms);
    is_shareable(sieve);
}
