//! Laws of the counting machine about fields: which thread uses a row's field alone, and what a field holds.

ghost use Rattle.brc_model.specs.FieldLaws.{GivenFieldsAreUnlocked, LockedFieldsAreFull, NeededFieldsAreUnlocked, FieldsAreFree, FieldsAreKnown, FieldsEnd};

/// States that a thread takes a field only while no thread uses it: as it locks the field's row, begins the birth of
/// the row's object, or begins to deallocate the object.
pub fn fields_are_free()
    ensures { FieldsAreFree }
{}

/// States that a thread gives a field back as it unlocks the field's row, or while it hasn't locked the row.
pub fn given_fields_are_unlocked()
    ensures { GivenFieldsAreUnlocked }
{}

/// States that a thread that gives birth to a row's object, or deallocates it, hasn't locked the row.
pub fn needed_fields_are_unlocked()
    ensures { NeededFieldsAreUnlocked }
{}

/// States that a thread knows what is in the field that it takes or gives back, at a birth and at a deallocation:
/// nothing before the birth and after the deallocation, and else the resource of the object, if its kind has one.
pub fn fields_are_known()
    ensures { FieldsAreKnown }
{}

/// States that the field of an object that a thread has locked has the object's resource, if its kind has one, unless
/// the thread has lent it.
pub fn locked_fields_are_full()
    ensures { LockedFieldsAreFull }
{}

/// States that at the end the field of a closed row is empty, and that of each other row has its object's resource.
pub fn fields_end()
    ensures { FieldsEnd }
{}
