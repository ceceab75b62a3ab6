//! Stores: what they have, what spoils it, and folders that are missing, blocked, no folders, or cut by hand.
use crate::tests_given::{Failing, is};
use rl_chunks::{DirStore, MemStore, Spoil, SpoilStore, Store, StoreFault};
use rl_plain::{PlainList, PlainText};
use std::alloc::Global;
use std::fs;
use std::process::Abort;
use std::rt::Files;

fn put<S: Store>(
    store: &mut S,
    alloc: Global,
    number: u64,
    bytes: &[u8],
) -> Result<(), StoreFault> {
    store.put(number, Vec::from_slice(alloc, bytes)?)
}

// Asserts that a number has these bytes.
fn has<S: Store>(rt: &impl Abort, store: &mut S, number: u64, want: &[u8]) {
    match store.get(number) {
        Ok(Some(bytes)) => is(rt, bytes.as_slice(), want, number),
        Ok(None) => is(rt, "nothing", "bytes", number),
        Err(fault) => is(rt, Err(fault), Ok(()), number),
    }
}

// Asserts that a number has none.
fn lacks<S: Store>(rt: &impl Abort, store: &mut S, number: u64) {
    is(rt, matches!(store.get(number), Ok(None)), true, number);
}

// Asserts that an empty store has what is put, the last of it. It is read four times.
fn keeps<S: Store>(rt: &impl Abort, alloc: Global, store: &mut S) {
    lacks(rt, store, 7);
    is(rt, put(store, alloc, 7, b"ab"), Ok(()), 0);
    is(rt, put(store, alloc, u64::MAX, b""), Ok(()), 1);
    has(rt, store, 7, b"ab");
    has(rt, store, u64::MAX, b"");
    is(rt, put(store, alloc, 7, b"abcdef"), Ok(()), 2);
    has(rt, store, 7, b"abcdef");
}

// Asserts that a number has nothing once that is removed, and may be removed again. It is read once.
fn loses<S: Store>(rt: &impl Abort, store: &mut S) {
    is(rt, store.remove(7), Ok(()), 0);
    is(rt, store.remove(7), Ok(()), 1);
    is(rt, store.remove(1), Ok(()), 2);
    lacks(rt, store, 7);
}

#[test]
fn a_store_in_memory_has_what_was_put(rt: HostRuntime) {
    let mut store = MemStore::new(rt.alloc());
    keeps(&rt, rt.alloc(), &mut store);
    loses(&rt, &mut store);
    has(&rt, &mut store, u64::MAX, b"");
    is(&rt, (store.reads(), store.len()), (6, 1), 0);
}

// How reads are spoilt; of two for one read the first counts.
const PLAN: [(u64, Spoil); 7] = [
    (1, Spoil::Cut(2)),
    (2, Spoil::Flip(0)),
    (3, Spoil::Flip(3)),
    (4, Spoil::Swap(1)),
    (5, Spoil::Gone),
    (5, Spoil::Cut(0)),
    (7, Spoil::Flip(0)),
];

fn spoilt(alloc: Global) -> Result<SpoilStore<MemStore>, StoreFault> {
    let plan = Vec::from_slice(alloc, &PLAN)?;
    let mut inner = MemStore::new(alloc);
    put(&mut inner, alloc, 0, b"abc")?;
    put(&mut inner, alloc, 1, b"\xff")?;
    Ok(SpoilStore::new(inner, PlainList::from_vec(plan)))
}

fn is_spoilt(rt: &impl Abort, store: &mut SpoilStore<MemStore>) {
    for want in [b"abc".as_slice(), b"ab", b"bbc", b"abc", b"\xff"] {
        has(rt, store, 0, want);
    }
    lacks(rt, store, 0);
    has(rt, store, 0, b"abc");
    has(rt, store, 1, b"\x00");
    has(rt, store, 1, b"\xff");
    is(rt, store.inner().reads(), 8, 0);
}

#[test]
fn a_plan_spoils_the_reads_that_it_names(rt: HostRuntime) {
    match spoilt(rt.alloc()) {
        Ok(mut store) => is_spoilt(&rt, &mut store),
        Err(fault) => is(&rt, Err(fault), Ok(()), 0),
    }
}

fn is_refused(rt: &impl Abort, alloc: Global, refused: u64) {
    let inner = Failing::new(alloc, refused, StoreFault::Fault);
    let mut store = SpoilStore::new(inner, PlainList::new(alloc));
    let stored = put(&mut store, alloc, 0, b"abc");
    is(rt, stored == Err(StoreFault::Fault), refused == 0, 0);
    let found = store.get(0);
    is(rt, matches!(found, Err(StoreFault::Fault)), refused == 1, 1);
    let removed = store.remove(0);
    is(rt, removed == Err(StoreFault::Fault), refused == 2, 2);
}

#[test]
fn a_fault_of_the_other_store_is_reported(rt: HostRuntime) {
    for refused in 0..3 {
        is_refused(&rt, rt.alloc(), refused);
    }
}

fn store_in<R: Files + Drop>(
    rt: R,
    alloc: Global,
    folder: &str,
) -> Result<DirStore<R>, StoreFault> {
    Ok(DirStore::new(rt, PlainText::from_str(alloc, folder)?))
}

// Asserts that there is a file with these bytes.
fn file_has(rt: &(impl Abort + Alloc + Files), name: &str, want: &[u8]) {
    match fs::read(rt, name) {
        Ok(bytes) => is(rt, bytes.as_slice(), want, 0),
        Err(_) => is(rt, "no file", name, 0),
    }
}

fn is_in_files<R: Abort + Alloc + Files + Drop>(rt: &R, alloc: Global, store: &mut DirStore<R>) {
    keeps(rt, alloc, store);
    file_has(rt, "stores_of_a_test/7", b"abcdef");
    file_has(rt, "stores_of_a_test/18446744073709551615", b"");
    is(rt, fs::read(rt, "stores_of_a_test/7.new").is_err(), true, 0);
    let written = fs::write(rt, "stores_of_a_test/7", b"ab".as_slice());
    is(rt, written.is_ok(), true, 1);
    has(rt, store, 7, b"ab");
    loses(rt, store);
    is(rt, (store.reads(), store.faults()), (6, 0), 2);
}

// Asserts that the number 0, whose file cannot be, is a fault, and that another is none.
fn is_blocked<R: Abort + Alloc + Files + Drop>(rt: &R, alloc: Global, store: &mut DirStore<R>) {
    is(rt, put(store, alloc, 0, b"abc"), Err(StoreFault::Fault), 0);
    is(rt, matches!(store.get(0), Err(StoreFault::Fault)), true, 1);
    is(rt, store.remove(0), Err(StoreFault::Fault), 2);
    is(rt, fs::read(rt, "stores_of_a_test/0.new").is_err(), true, 3);
    is(rt, (store.reads(), store.faults()), (7, 3), 4);
    is(rt, put(store, alloc, 1, b"abc"), Ok(()), 5);
    has(rt, store, 1, b"abc");
}

#[test]
fn a_folder_has_a_file_for_each_number(rt: HostRuntime) {
    let blocked = fs::create_dir_all(&rt, "stores_of_a_test/0/in_it");
    is(&rt, blocked.is_ok(), true, 0);
    match store_in(rt, rt.alloc(), "stores_of_a_test") {
        Ok(mut store) => {
            is_in_files(&rt, rt.alloc(), &mut store);
            is_blocked(&rt, rt.alloc(), &mut store);
        }
        Err(fault) => is(&rt, Err(fault), Ok(()), 1),
    }
    is(
        &rt,
        fs::remove_dir_all(&rt, "stores_of_a_test").is_ok(),
        true,
        2,
    );
}

fn is_missing<R: Abort + Files + Drop>(rt: &R, alloc: Global, store: &mut DirStore<R>) {
    is(rt, put(store, alloc, 0, b"abc"), Err(StoreFault::Fault), 0);
    lacks(rt, store, 0);
    is(rt, store.remove(0), Ok(()), 1);
    is(rt, (store.reads(), store.faults()), (1, 1), 2);
}

#[test]
fn a_folder_that_is_missing_is_a_fault(rt: HostRuntime) {
    match store_in(rt, rt.alloc(), "no_such_folder") {
        Ok(mut store) => is_missing(&rt, rt.alloc(), &mut store),
        Err(fault) => is(&rt, Err(fault), Ok(()), 0),
    }
}

fn is_no_folder<R: Abort + Files + Drop>(rt: &R, alloc: Global, store: &mut DirStore<R>) {
    let stored = put(store, alloc, 0, b"abc");
    let found = matches!(store.get(0), Err(StoreFault::Fault));
    let removed = store.remove(0);
    let fault = Err(StoreFault::Fault);
    is(rt, (stored, found, removed), (fault, true, fault), 0);
    is(rt, (store.reads(), store.faults()), (1, 3), 1);
}

#[test]
fn a_file_in_the_place_of_a_folder_is_a_fault(rt: HostRuntime) {
    let written = fs::write(&rt, "file_of_a_test", b"".as_slice());
    is(&rt, written.is_ok(), true, 0);
    match store_in(rt, rt.alloc(), "file_of_a_test") {
        Ok(mut store) => is_no_folder(&rt, rt.alloc(), &mut store),
        Err(fault) => is(&rt, Err(fault), Ok(()), 1),
    }
    is(&rt, fs::remove_file(&rt, "file_of_a_test").is_ok(), true, 2);
}

// A file that was not written to its end is not read, and is gone when its number is put.
fn is_passed_over<R: Abort + Alloc + Files + Drop>(rt: &R, alloc: Global, store: &mut DirStore<R>) {
    let written = fs::write(rt, "unwritten_of_a_test/9.new", b"ab".as_slice());
    is(rt, written.is_ok(), true, 0);
    lacks(rt, store, 9);
    is(rt, put(store, alloc, 9, b"abc"), Ok(()), 1);
    has(rt, store, 9, b"abc");
    let beside = fs::read(rt, "unwritten_of_a_test/9.new");
    is(rt, beside.is_err(), true, 2);
}

#[test]
fn a_file_that_was_not_written_to_its_end_is_passed_over(rt: HostRuntime) {
    let made = fs::create_dir_all(&rt, "unwritten_of_a_test");
    is(&rt, made.is_ok(), true, 0);
    match store_in(rt, rt.alloc(), "unwritten_of_a_test") {
        Ok(mut store) => is_passed_over(&rt, rt.alloc(), &mut store),
        Err(fault) => is(&rt, Err(fault), Ok(()), 1),
    }
    let removed = fs::remove_dir_all(&rt, "unwritten_of_a_test");
    is(&rt, removed.is_ok(), true, 2);
}
