ghost use Rattle.std.specs.Prelude.{◌≡◌};
ghost use Rattle.brc_c_store.specs.Stores.{with_item};
ghost use Rattle.brc_c_store.specs.Values.{is_item, is_last, is_alive};

use crate::register::{Register, RegisterSet};
use crate::value::{ObjectId, Singleton};

/// Whose reference to an object the function may use, beside its own ones.
#[derive(Clone, Copy, PartialEq, Eq)]
pub enum Base {
    /// Nobody's: without a register of its own the object may be freed.
    Gone,
    /// It is lent for the whole call.
    Call,
    /// A container's, which may change. The register has the item.
    Item(Register),
    /// That of another object, which lends it as long as it lives.
    Part(ObjectId),
    /// That of a field, or of a variable that is there after the call, too.
    Field,
}

impl Base {
    pub(crate) fn is_item(self) -> bool
        ensures { result ≡ is_item self }
    {
        matches!(self, Base::Item(_))
    }

    /// Returns the registers with that of an item.
    pub(crate) fn added_to(self, registers: RegisterSet) -> RegisterSet
        ensures { result ≡ with_item registers self }
    {
        match self {
            Base::Item(register) => registers.with(register),
            _ => registers,
        }
    }
}

/// An object that a function knows.
#[derive(Clone, Copy, PartialEq, Eq)]
pub struct Object {
    /// The registers that own its references.
    pub registers: RegisterSet,
    pub base: Base,
    /// Whether the function has made it and given it to nobody.
    pub is_fresh: bool,
    /// The container that has made a reference of its own.
    pub kept_by: Option<ObjectId>,
    /// Whether the function has given a field a reference beside the one that it borrows, and may take it back once.
    pub is_in_field: bool,
    pub singleton: Option<Singleton>,
    /// Whether something is assumed of it, so that a fault in it is possible only.
    pub is_assumed: bool,
}

impl Object {
    /// An object of which nobody has a reference.
    pub const GONE: Object = Object {
        registers: RegisterSet::EMPTY,
        base: Base::Gone,
        is_fresh: false,
        kept_by: None,
        is_in_field: false,
        singleton: None,
        is_assumed: false,
    };

    /// An object that is lent for the whole call.
    pub const LENT: Object = Object {
        base: Base::Call,
        ..Object::GONE
    };

    /// Returns whether the object dies if one more reference is given up.
    pub(crate) fn is_last(self) -> bool
        ensures { result ≡ is_last self }
    {
        self.registers.count() == 1 && self.base == Base::Gone && self.kept_by.is_none()
    }

    /// Returns whether the function may use the object.
    pub fn is_alive(self) -> bool
        ensures { result ≡ is_alive self }
    {
        !self.registers.is_empty() || self.base != Base::Gone
    }
}
