//! Two values that a case compares, written before and after ` ~ `.
use crate::given::Read;
use crate::trouble::Trouble;
use rl_plain::{Same, TryCopy};
use std::hash::{DefaultHasher, Hash, Hasher};

/// The texts before and after the sign.
pub(crate) fn halves(input: &str) -> Result<(&str, &str), Trouble> {
    input.split_once(" ~ ").ok_or(Trouble::BadInput)
}

/// How a copy of the left value stands to the right one: by its signs, by `cmp`, and whether they are the same.
pub(crate) fn compared<T>(output: &mut String, input: &str) -> Result<(), Trouble>
where
    T: Read + Ord + Hash + Same + TryCopy,
{
    let alloc = *output.allocator();
    let (left, right) = halves(input)?;
    let left = T::read(alloc, left)?;
    push_order(output, &left, &T::read(alloc, right)?)
}

fn push_order<T>(output: &mut String, left: &T, right: &T) -> Result<(), Trouble>
where
    T: Ord + Hash + Same + TryCopy,
{
    let copy = left.try_copy()?;
    let (sign, order) = (sign_of(&copy, right), left.cmp(right));
    let word = word_of(&copy, right);
    writeln!(output, "{sign} {order:?} {word}")?;
    Ok(())
}

/// Whether a copy of the left value is equal to the right one and the same, neither, or one alone.
pub(crate) fn matched<T>(output: &mut String, input: &str) -> Result<(), Trouble>
where
    T: Read + PartialEq + Same + TryCopy,
{
    let alloc = *output.allocator();
    let (left, right) = halves(input)?;
    let left = T::read(alloc, left)?;
    push_likeness(output, &left, &T::read(alloc, right)?)
}

fn push_likeness<T>(output: &mut String, left: &T, right: &T) -> Result<(), Trouble>
where
    T: PartialEq + Same + TryCopy,
{
    let copy = left.try_copy()?;
    let word = match (copy == *right, copy.is_same(right)) {
        (true, true) => "same",
        (false, false) => "other",
        _ => "unlike",
    };
    writeln!(output, "{word}")?;
    Ok(())
}

fn sign_of<T: Ord>(left: &T, right: &T) -> &'static str {
    match (left < right, left == right, left > right) {
        (true, false, false) => "<",
        (false, true, false) => "=",
        (false, false, true) => ">",
        _ => "no order",
    }
}

// Values that are the same have one hash.
fn word_of<T: Same + Hash>(left: &T, right: &T) -> &'static str {
    match (left.is_same(right), hash_of(left) == hash_of(right)) {
        (true, true) => "same",
        (true, false) => "two hashes",
        (false, _) => "other",
    }
}

fn hash_of<T: Hash>(value: &T) -> u64 {
    let mut state = DefaultHasher::new();
    value.hash(&mut state);
    state.finish()
}
