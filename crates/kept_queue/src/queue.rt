//! A queue of numbers under the root of a store.

use object_store::{Disk, Store, StoreError};

/// The slot of the root that names the first cell.
const FIRST: u8 = 0;

/// The slot of the root that names the last cell.
const LAST: u8 = 1;

/// The slot of a cell that names the next one.
const NEXT: u8 = 0;

/// Puts a number at the end of the queue. Where no object is free it collects, and tries again.
pub fn put<D: Disk>(store: &mut Store<D>, number: u64) -> Result<(), StoreError> {
    match put_once(store, number) {
        Err(StoreError::Full) => {
            store.collect(1_000)?;
            put_once(store, number)
        }
        done => done,
    }
}

/// Puts a number at the end of the queue.
fn put_once<D: Disk>(store: &mut Store<D>, number: u64) -> Result<(), StoreError> {
    let mut t = store.begin()?;
    let root = t.root();
    let cell = t.make()?;
    t.set_payload(cell, number)?;
    match t.get(root, LAST)? {
        Some(last) => t.set(last, NEXT, Some(cell))?,
        None => t.set(root, FIRST, Some(cell))?,
    }
    t.set(root, LAST, Some(cell))?;
    t.commit()
}

/// Takes the first number out of the queue, if there is one.
pub fn take<D: Disk>(store: &mut Store<D>) -> Result<Option<u64>, StoreError> {
    let mut t = store.begin()?;
    let root = t.root();
    let Some(first) = t.get(root, FIRST)? else {
        return Ok(None);
    };
    let number = t.payload(first)?;
    let next = t.get(first, NEXT)?;
    t.set(root, FIRST, next)?;
    if next.is_none() {
        t.set(root, LAST, None)?;
    }
    t.commit()?;
    Ok(Some(number))
}

/// Empties the queue, and leaves the transaction without a commit: the queue stays as it was.
pub fn lose<D: Disk>(store: &mut Store<D>) -> Result<(), StoreError> {
    let mut t = store.begin()?;
    let root = t.root();
    t.set(root, FIRST, None)?;
    t.set(root, LAST, None)
}
