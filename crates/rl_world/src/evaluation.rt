//! A whole evaluation of a group of a world, from its begin to its commit.
ghost use Rattle.std.specs.Prelude.{◌≡◌, true, length, is_some, Some, OnErr, IfOk};
ghost use Rattle.std.specs.List.{AllByRecursion};
ghost use Rattle.rl_world.specs.Evaluations.{AreAskedFor, IsEvaluated, IsFinished, name_at, open_moment};
ghost use Rattle.rl_world.specs.WorldState.{TookPrefixes};

use crate::fault::Refusal;
use crate::step::Committed;
use crate::world::World;
use rl_chunks::Store;
use rl_labels::Ns;
use rl_sinks::Sink;

impl<D: Store, S: Sink> World<D, S> {
    /// Evaluates the group at a moment: opens an evaluation, asks each shard in order, and commits, up to the first refusal. What
    /// was opened is then abandoned.
    pub fn evaluate(&mut self, group: usize, t: Ns) -> Result<Committed, Refusal>
        ensures evaluated { IsEvaluated self.old group t result self.new }
        ensures moment { IfOk result (λ committed. committed.evaluation.t ≡ t) }
        ensures prefixes { AllByRecursion TookPrefixes self.new.books }
    {
        self.begin(group, t)?;
        match self.finish(group) {
            Ok(committed) => Ok(committed),
            Err(refusal) => {
                let _abandoned = self.abandon(group);
                Err(refusal)
            }
        }
    }

    // Asks each shard, and commits the open evaluation of the group.
    fn finish(&mut self, group: usize) -> Result<Committed, Refusal>
        requires { is_some (open_moment self.old group) ≡ true }
        ensures made { IsFinished self.old group result self.new }
        ensures moment { IfOk result (λ committed. open_moment self.old group ≡ Some committed.evaluation.t) }
        ensures of_group { IfOk result (λ committed. name_at self.old group ≡ Some committed.evaluation.group) }
        ensures still_open { OnErr result (is_some (open_moment self.new group) ≡ true) }
        ensures prefixes { AllByRecursion TookPrefixes self.old.books → AllByRecursion TookPrefixes self.new.books }
    {
        self.gather_all(group)?;
        self.commit(group)
    }

    // Asks each shard in order.
    fn gather_all(&mut self, group: usize) -> Result<(), Refusal>
        ensures made { AreAskedFor self.old group 0 (length self.old.shards) result self.new }
        ensures still_open { open_moment self.new group ≡ open_moment self.old group }
        ensures named { name_at self.new group ≡ name_at self.old group }
        ensures prefixes { AllByRecursion TookPrefixes self.old.books → AllByRecursion TookPrefixes self.new.books }
    {
        for number in 0..self.shards() {
            self.gather(group, number)?;
        }
        Ok(())
    }
}
