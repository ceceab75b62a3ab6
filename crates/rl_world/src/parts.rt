//! The shards and the books of a world, as they are kept.
ghost use Rattle.std.specs.Prelude.{◌≡◌, ◌-◌, ◌^◌, length, min};
ghost use Rattle.std.specs.List.{AllByRecursion, AllZip};
ghost use Rattle.std.proofs.Props.{props};
ghost use Rattle.rl_world.specs.Closed.{HasAnswered, IsBookClosed, failures, sinks_of};
ghost use Rattle.rl_world.specs.WorldState.{IsBookOf};

use crate::book::Book;
use rl_chunks::Store;
use rl_shard::Shard;
use rl_sinks::Sink;

/// The shards, and the books of the rule groups.
#[derive(Drop)]
pub(crate) struct WorldParts<D: Store, S: Sink> {
    pub(crate) shards: Vec<Shard<D>>,
    pub(crate) books: Vec<Book<S>>,
    ghost books_fit: { AllByRecursion (IsBookOf (length shards.items)) books.items } by { Prim.hlevel props },
}

impl<D: Store, S: Sink> WorldParts<D, S> {
    /// Closes the sinks of each book in order. How many could not write all.
    pub(crate) fn close_sinks(&mut self) -> u64
        ensures shards { self.new.shards.items ≡ self.old.shards.items }
        ensures books { AllZip IsBookClosed self.old.books.items self.new.books.items }
        ensures counted { result ≡ min (failures (sinks_of self.new.books.items)) (2 ^ 64 - 1) }
        ensures answers { AllByRecursion (HasAnswered S.state S.close_answers) (sinks_of self.new.books.items) }
    {
        close_books(&mut self.books)
    }
}

// Closes the sinks of each book in order. How many could not write all.
fn close_books<S: Sink>(books: &mut [Book<S>]) -> u64
    ensures closed { AllZip IsBookClosed books.old books.new }
    ensures counted { result ≡ min (failures (sinks_of books.new)) (2 ^ 64 - 1) }
    ensures answers { AllByRecursion (HasAnswered S.state S.close_answers) (sinks_of books.new) }
{
    let mut failed = 0u64;
    for number in 0..books.len() {
        failed = failed.saturating_add(books[number].close_sinks());
    }
    failed
}
