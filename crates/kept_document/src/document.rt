//! A document of sections with paragraphs, under the root of a store.

use object_store::{Disk, Ref, Store, StoreError, Transaction};

/// The slot of a part that names the first part in it.
pub const FIRST: u8 = 0;

/// The slot of a part that names the next one beside it.
pub const NEXT: u8 = 1;

/// The slot of a part that names the one that it is in.
const AROUND: u8 = 2;

/// Adds a part in another one, ahead of those in it. The two name each other.
fn add<'t, D: Disk>(
    t: &mut Transaction<'t, D>,
    around: Ref<'t>,
    number: u64,
) -> Result<Ref<'t>, StoreError> {
    let part = t.make()?;
    t.set_payload(part, number)?;
    let first = t.get(around, FIRST)?;
    t.set(part, NEXT, first)?;
    t.set(part, AROUND, Some(around))?;
    t.set(around, FIRST, Some(part))?;
    if let Some(first) = first {
        t.release(first);
    }
    Ok(part)
}

/// Adds a section with these paragraphs ahead of the document.
pub fn add_section<D: Disk>(
    store: &mut Store<D>,
    number: u64,
    paragraphs: &[u64],
) -> Result<(), StoreError> {
    let mut t = store.begin()?;
    let root = t.root();
    let section = add(&mut t, root, number)?;
    add_all(&mut t, section, paragraphs)?;
    t.commit()
}

/// Adds these paragraphs to a section.
fn add_all<'t, D: Disk>(
    t: &mut Transaction<'t, D>,
    section: Ref<'t>,
    paragraphs: &[u64],
) -> Result<(), StoreError> {
    for number in paragraphs {
        let part = add(t, section, *number)?;
        t.release(part);
    }
    Ok(())
}

/// Takes the first section out of the document. Its parts still name each other, so that no count of references would free them.
pub fn drop_section<D: Disk>(store: &mut Store<D>) -> Result<(), StoreError> {
    let mut t = store.begin()?;
    let root = t.root();
    if let Some(section) = t.get(root, FIRST)? {
        let next = t.get(section, NEXT)?;
        t.set(root, FIRST, next)?;
    }
    t.commit()
}
