ghost use Rattle.std.specs.Prelude.{◌≡◌};
ghost use Rattle.brc_c_store.specs.Values.{object_in};

use crate::signs::Signs;

/// A name of a function that its text assigns: a parameter, a variable, or an intermediate value.
#[derive(Clone, Copy, PartialEq, Eq)]
pub struct Local(pub usize);

/// An object of a store, by its place there.
#[derive(Clone, Copy, PartialEq, Eq)]
pub struct ObjectId(pub usize);

/// An object that everybody knows by name, as `Py_None` and `PyExc_TypeError`: the place of its name among those of the
/// function.
#[derive(Clone, Copy, PartialEq, Eq)]
pub struct Singleton(pub usize);

/// A condition that a function asks more than once in the same words: the place of its words among those of the
/// function.
#[derive(Clone, Copy, PartialEq, Eq)]
pub struct Fact(pub usize);

/// What a name has.
#[derive(Clone, Copy, PartialEq, Eq)]
pub enum Value {
    /// Nothing is assigned to it.
    Unset,
    Null,
    Object(ObjectId),
    /// The object, or NULL: nobody has asked yet.
    Maybe(ObjectId),
    /// A number, or a pointer that is no object, whose sign is one of these. NULL is 0.
    Number(Signs),
}

impl Value {
    /// Returns the object that it is, or may be.
    pub fn object(self) -> Option<ObjectId>
        ensures { result ≡ object_in self }
    {
        match self {
            Value::Object(id) | Value::Maybe(id) => Some(id),
            Value::Unset | Value::Null | Value::Number(_) => None,
        }
    }
}
