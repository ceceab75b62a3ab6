//! Label sets that are built label by label.
ghost use Rattle.std.specs.Prelude.{◌≡◌, ◌≤◌, List, ℕ, true, IsTrue, IfOk, IfSome, OnOk, OnErr, None, is_some, length, if◌then◌else◌};
ghost use Rattle.std.specs.List.{insert};
ghost use Rattle.std.specs.Option.{option_copied};
ghost use Rattle.std.specs.FinMap.Entries.{find, put};
ghost use Rattle.rl_labels.specs.Name.{name_cmp};
ghost use Rattle.rl_labels.specs.Growing.{labels_in};
ghost use Rattle.rl_labels.specs.LabelTrees.{with_new};
ghost use Rattle.rl_labels.specs.LabelSet.{is_label, are_labels, label, with_label};

use crate::label_tree::LabelTree;
use crate::labels::{Labels, push_copies, short_label, value_in};
use crate::short::ShortText;
use std::alloc::{AllocError, Global};
use std::cmp::Ordering;
use std::marker::Model;

// The labels for which there is room at first, beside those of the set that it begins with.
const ROOM: usize = 8;

// Up to this many labels are kept in a list, and more in a tree.
const FEW: usize = 32;

/// A label set that grows label by label, and whose text is made once, at the end. Contracts see the set.
#[derive(Drop)]
pub struct LabelsBuilder {
    alloc: Global,
    form: Form,
}

// Few labels stand in a list, and more in a tree: a list with thousands takes too long to keep in order.
#[derive(Drop)]
pub(crate) enum Form {
    Few(Vec<(ShortText, ShortText)>),
    Many(LabelTree),
}

impl Model for LabelsBuilder {
    ghost use Rattle.std.specs.Prelude.{IsTrue};
    ghost use Rattle.rl_labels.specs.Growing.{labels_in};
    ghost use Rattle.rl_labels.specs.LabelSet.{LabelSet, label_set_code, label_set_of, are_labels};

    ghost Value = { LabelSet };

    ghost coded = { label_set_code };

    ghost view = { λ a. label_set_of (labels_in a.form) };

    ghost invariant = { λ a. IsTrue (are_labels (labels_in a.form)) };
}

impl LabelsBuilder {
    /// The labels of a set, copied.
    pub fn new(alloc: Global, set: &Labels) -> Result<LabelsBuilder, AllocError>
        ensures { IfOk result (λ builder. builder ≡ set.now) }
    {
        let pairs = set.pairs();
        let mut labels = Vec::with_capacity(alloc, pairs.len().saturating_add(ROOM))?;
        push_copies(&mut labels, pairs)?;
        Ok(LabelsBuilder {
            alloc,
            form: Form::Few(labels),
        })
    }

    /// The value of a label, if the set has it.
    pub fn get(&self, name: &str) -> Option<&str>
        ensures { option_copied result ≡ label self.now name.now }
    {
        match &self.form {
            Form::Few(labels) => value_in(labels, name),
            Form::Many(tree) => tree.get(name),
        }
    }

    /// Adds a label, unless the set has one with its name. Refused, the set stays as it was.
    pub fn add(&mut self, name: &str, value: &str) -> Result<(), AllocError>
        requires { IsTrue (is_label (name.now, value.now)) }
        ensures added { OnOk result (self.new ≡ (if is_some (label self.old name.now) then self.old else with_label self.old name.now value.now)) }
        ensures refused { OnErr result (self.new ≡ self.old) }
    {
        self.make_room()?;
        add_to(&mut self.form, name, value)?;
        Ok(())
    }

    // Makes a tree of a list that is full.
    fn make_room(&mut self) -> Result<(), AllocError>
        ensures { self.new ≡ self.old }
    {
        if let Some(tree) = tree_of(self.alloc, &self.form)? {
            self.form = Form::Many(tree);
        }
        Ok(())
    }

    /// The set, with its text.
    pub fn build(&self) -> Result<Labels, AllocError>
        ensures { IfOk result (λ labels. labels ≡ self.now) }
    {
        let labels = match &self.form {
            Form::Few(labels) => copies(self.alloc, labels)?,
            Form::Many(tree) => tree.labels()?,
        };
        let built = Labels::from_labels(self.alloc, labels)?;
        Ok(built)
    }
}

// The tree of a list that is full, if it is one.
fn tree_of(alloc: Global, form: &Form) -> Result<Option<LabelTree>, AllocError>
    requires { IsTrue (are_labels (labels_in form.now)) }
    ensures { IfOk result (λ found. IfSome found (λ tree. tree ≡ labels_in form.now)) }
{
    match form {
        Form::Few(labels) if labels.len() >= FEW => Ok(Some(planted(alloc, labels)?)),
        _ => Ok(None),
    }
}

// A tree of labels by rising name. The last are put first, so that each stands in front of those that are there.
fn planted(alloc: Global, labels: &[(ShortText, ShortText)]) -> Result<LabelTree, AllocError>
    requires { IsTrue (are_labels labels.now) }
    ensures { IfOk result (λ tree. tree ≡ labels.now) }
{
    let mut tree = LabelTree::new(alloc);
    let mut left = labels.len();
    while left > 0 {
        left -= 1;
        let label = &labels[left];
        tree.put(label.0.as_str(), label.1.as_str())?;
    }
    Ok(tree)
}

// Adds a label, unless one has its name.
fn add_to(form: &mut Form, name: &str, value: &str) -> Result<(), AllocError>
    requires { IsTrue (are_labels (labels_in form.old)) }
    ensures added { OnOk result (labels_in form.new ≡ with_new name.now value.now (labels_in form.old)) }
    ensures refused { OnErr result (labels_in form.new ≡ labels_in form.old) }
{
    match form {
        Form::Few(labels) => add_to_list(labels, name, value),
        Form::Many(tree) => tree.add(name, value),
    }
}

fn add_to_list(
    labels: &mut Vec<(ShortText, ShortText)>,
    name: &str,
    value: &str,
) -> Result<(), AllocError>
    requires { IsTrue (are_labels labels.old.items) }
    ensures added { OnOk result (labels.new.items ≡ with_new name.now value.now labels.old.items) }
    ensures refused { OnErr result (labels.new.items ≡ labels.old.items) }
{
    let Some(index) = index_of(labels, name) else {
        return Ok(());
    };
    let alloc = *labels.allocator();
    let label = short_label(alloc, name, value)?;
    labels.insert(index, label)?;
    Ok(())
}

// Copies of labels.
fn copies(
    alloc: Global,
    labels: &[(ShortText, ShortText)],
) -> Result<Vec<(ShortText, ShortText)>, AllocError>
    ensures { IfOk result (λ all. all.items ≡ labels.now) }
{
    let mut all = Vec::with_capacity(alloc, labels.len())?;
    push_copies(&mut all, labels)?;
    Ok(all)
}

// Where a label with the name stands among labels by rising name, unless one has it. It is sought from the end, as most
// labels come in the order of their names.
fn index_of(labels: &[(ShortText, ShortText)], name: &str) -> Option<usize>
    requires { IsTrue (are_labels labels.now) }
    ensures there { result ≡ None → is_some (find name_cmp name.now labels.now) ≡ true }
    ensures within { IfSome result (λ index. index ≤ length labels.now) }
    ensures absent { IfSome result (λ index. find name_cmp name.now labels.now ≡ None) }
    ensures placed { IfSome result (λ index. (value : List ℕ) → put name_cmp name.now value labels.now ≡ insert labels.now index (name.now, value)) }
{
    let mut index = labels.len();
    while index > 0 {
        match name.cmp(labels[index - 1].0.as_str()) {
            Ordering::Less => index -= 1,
            Ordering::Equal => return None,
            Ordering::Greater => return Some(index),
        }
    }
    Some(0)
}
