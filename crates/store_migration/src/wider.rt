//! Stores of six slots as stores of fourteen: each object keeps what it has, and has null slots after its own.
ghost use Rattle.store_migration.specs.WiderLaws.{ConsistentLaw, SameObjectsLaw, PageLaw};

/// The cells of a sound store, with null slots after their own, are those of a sound store.
pub fn wider_stores_are_sound()
    ensures { ConsistentLaw }
{}

/// The root reaches the same objects there, and each has its slots, null slots after them, and its payload.
pub fn wider_stores_have_the_same_objects()
    ensures { SameObjectsLaw }
{}

/// A page of six slots with eight null slots after the own ones of each cell is that page of the wider store.
pub fn wider_pages_are_those_of_the_store()
    ensures { PageLaw }
{}
