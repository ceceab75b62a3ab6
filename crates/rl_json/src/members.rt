//! Members of objects.
ghost use Rattle.std.specs.Prelude.{◌≡◌, ◌≤◌, ◌+◌, IfOk, OnOk, length, take, drop, ◌<◌, vec_len, slice_set, option_map};
ghost use Rattle.json.specs.Value.{value_view, members_view};
ghost use Rattle.serde_json.specs.Data.{Data, no_members, member, put};
ghost use Rattle.serde_json.specs.Find.{get_member};
ghost use Rattle.rl_json.specs.JsonData.{data_of, members_data, referred, in_front};

use json::Value;
use std::alloc::{AllocError, Global};
use std::cmp::Ordering;
use std::collections::BTreeMap;

// Up to this many members are put in order one by one, and more through a map.
const FEW: usize = 16;

/// The value at a key. Of two with one key it is the last.
pub fn value_at<'m, 'v>(members: &'m [(&'v str, Value<'v>)], key: &str) -> Option<&'m Value<'v>>
    ensures { option_map (λ v. data_of (value_view v.now)) result ≡ get_member key.now (members_data (members_view members.now) no_members) }
{
    let mut found = None;
    for member in members {
        if member.0 == key {
            found = Some(&member.1);
        }
    }
    found
}

/// The members by their keys in the order of bytes. Of two with one key the last stays.
pub fn sorted<'m, 'v>(
    alloc: Global,
    members: &'m [(&'v str, Value<'v>)],
) -> Result<Vec<(&'v str, &'m Value<'v>)>, AllocError>
    ensures { IfOk result (λ found. referred found.items ≡ members_data (members_view members.now) no_members) }
{
    if members.len() > FEW {
        return listed(alloc, map_of(alloc, members)?);
    }
    let mut found = Vec::with_capacity(alloc, members.len())?;
    for member in members {
        put_member(&mut found, member.0, &member.1)?;
    }
    Ok(found)
}

// Puts a member among the others by its key. It replaces one with this key.
fn put_member<'m, 'v>(
    found: &mut Vec<(&'v str, &'m Value<'v>)>,
    key: &'v str,
    value: &'m Value<'v>,
) -> Result<(), AllocError>
    ensures { OnOk result (referred found.new.items ≡ put key.now (data_of (value_view value.now)) (referred found.old.items)) }
{
    let (start, following) = span_of(found, key);
    if start < following {
        replace_at(found, start, (key, value));
    } else {
        found.insert(start, (key, value))?;
    }
    Ok(())
}

fn replace_at<T: Drop>(items: &mut Vec<T>, start: usize, item: T)
    requires { start < vec_len items.old }
    ensures { items.new.items ≡ slice_set items.old.items start item }
{
    items[start] = item;
}

// Where a member with the key stands or would stand, and where those after it begin.
fn span_of(found: &[(&str, &Value<'_>)], key: &str) -> (usize, usize)
    ensures within { (result.0 ≤ result.1) × (result.1 ≤ result.0 + 1) × (result.1 ≤ length found.now) }
    ensures placed { (d : Data) → put key.now d (referred found.now) ≡ in_front (take result.0 found.now) (member key.now d (referred (drop result.1 found.now))) }
{
    for (index, member) in found.iter().enumerate() {
        match key.cmp(member.0) {
            Ordering::Less => return (index, index),
            Ordering::Equal => return (index, index + 1),
            Ordering::Greater => {}
        }
    }
    (found.len(), found.len())
}

// The members of an object that has many.
fn map_of<'m, 'v>(
    alloc: Global,
    members: &'m [(&'v str, Value<'v>)],
) -> Result<BTreeMap<&'v str, &'m Value<'v>>, AllocError>
    ensures { IfOk result (λ found. referred found.entries ≡ members_data (members_view members.now) no_members) }
{
    let mut found = BTreeMap::new(alloc);
    for member in members {
        found.insert(member.0, &member.1)?;
    }
    Ok(found)
}

fn listed<'m, 'v>(
    alloc: Global,
    members: BTreeMap<&'v str, &'m Value<'v>>,
) -> Result<Vec<(&'v str, &'m Value<'v>)>, AllocError>
    ensures { IfOk result (λ all. all.items ≡ members.entry.entries) }
{
    let mut all = Vec::with_capacity(alloc, members.len())?;
    for (key, value) in members {
        all.push((key, value))?;
    }
    Ok(all)
}
