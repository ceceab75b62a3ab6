//! Many labels, in a tree by name.
ghost use Rattle.std.specs.Prelude.{◌≡◌, [], IfOk, OnOk, OnErr};
ghost use Rattle.std.specs.Option.{option_copied};
ghost use Rattle.std.specs.FinMap.Entries.{find, put};
ghost use Rattle.rl_labels.specs.LabelTrees.{with_new};
ghost use Rattle.rl_labels.specs.Name.{name_cmp};

use crate::short::ShortText;
use rl_plain::TryCopy;
use std::alloc::{AllocError, Global};
use std::collections::BTreeMap;
use std::marker::Model;

/// Labels that are found by name however many they are. Contracts see them by rising name.
#[derive(Drop)]
pub(crate) struct LabelTree {
    alloc: Global,
    by_name: BTreeMap<String, ShortText>,
}

impl Model for LabelTree {
    ghost use Rattle.std.specs.Prelude.{List};
    ghost use Rattle.rl_labels.specs.LabelSet.{Pair};
    ghost use Rattle.rl_labels.specs.LabelTrees.{pairs_in};

    ghost Value = { List Pair };

    ghost view = { λ a. pairs_in a.by_name.entries };
}

impl LabelTree {
    /// No labels.
    pub(crate) fn new(alloc: Global) -> LabelTree
        ensures { result ≡ [] }
    {
        LabelTree {
            alloc,
            by_name: BTreeMap::new(alloc),
        }
    }

    /// The value of a label, if one has the name.
    pub(crate) fn get(&self, name: &str) -> Option<&str>
        ensures { option_copied result ≡ find name_cmp name.now self.now }
    {
        match self.by_name.get(name) {
            Some(value) => Some(value.as_str()),
            None => None,
        }
    }

    /// Puts a label into the tree. It replaces one that has its name.
    pub(crate) fn put(&mut self, name: &str, value: &str) -> Result<(), AllocError>
        ensures put { OnOk result (self.new ≡ put name_cmp name.now value.now self.old) }
        ensures refused { OnErr result (self.new ≡ self.old) }
    {
        let name = String::from_str(self.alloc, name)?;
        let value = ShortText::from_str(self.alloc, value)?;
        self.by_name.insert(name, value)?;
        Ok(())
    }

    /// Adds a label, unless one has its name.
    pub(crate) fn add(&mut self, name: &str, value: &str) -> Result<(), AllocError>
        ensures added { OnOk result (self.new ≡ with_new name.now value.now self.old) }
        ensures refused { OnErr result (self.new ≡ self.old) }
    {
        if self.get(name).is_some() {
            return Ok(());
        }
        self.put(name, value)
    }

    /// The labels by rising name, copied.
    pub(crate) fn labels(&self) -> Result<Vec<(ShortText, ShortText)>, AllocError>
        ensures { IfOk result (λ labels. labels.items ≡ self.now) }
    {
        let mut labels = Vec::with_capacity(self.alloc, self.by_name.len())?;
        for (name, value) in self.by_name.iter() {
            let name = ShortText::from_str(self.alloc, name.as_str())?;
            labels.push((name, value.try_copy()?))?;
        }
        Ok(labels)
    }
}
