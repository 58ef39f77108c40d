//! Whether two stores are the same.

ghost use Rattle.std.specs.Prelude.{◌≡◌, IsTrue};
ghost use Rattle.brc_c_store.specs.Stores.{contents_of};

use brc_c_store::{
    Base, KnownFact, Named, Object, ObjectId, Owes, Section, Signs, Singleton, Store, Touched,
    Value,
};

/// What a list of a store has.
trait Same {
    /// Returns whether two are the same.
    fn is_same(&self, other: &Self) -> bool
        ensures { IsTrue result → self.now ≡ other.now };
}

impl Same for Named {
    fn is_same(&self, other: &Self) -> bool {
        self.local.0 == other.local.0 && same_value(self.value, other.value)
    }
}

impl Same for Object {
    fn is_same(&self, other: &Self) -> bool {
        self.registers == other.registers
            && same_base(self.base, other.base)
            && self.is_fresh == other.is_fresh
            && same_id(self.kept_by, other.kept_by)
            && self.is_in_field == other.is_in_field
            && same_singleton(self.singleton, other.singleton)
            && self.is_assumed == other.is_assumed
    }
}

impl Same for Touched {
    fn is_same(&self, other: &Self) -> bool {
        same_id(self.holder, other.holder)
            && self.field.0 == other.field.0
            && same_owes(self.owes, other.owes)
            && same_value(self.value, other.value)
            && self.is_owner == other.is_owner
    }
}

impl Same for Section {
    fn is_same(&self, other: &Self) -> bool {
        same_id(self.first, other.first) && same_id(self.second, other.second)
    }
}

impl Same for KnownFact {
    fn is_same(&self, other: &Self) -> bool {
        self.fact.0 == other.fact.0 && self.holds == other.holds
    }
}

fn same_id(one: Option<ObjectId>, other: Option<ObjectId>) -> bool
    ensures { IsTrue result → one ≡ other }
{
    match (one, other) {
        (None, None) => true,
        (Some(one), Some(other)) => one.0 == other.0,
        (None, Some(_)) | (Some(_), None) => false,
    }
}

fn same_singleton(one: Option<Singleton>, other: Option<Singleton>) -> bool
    ensures { IsTrue result → one ≡ other }
{
    match (one, other) {
        (None, None) => true,
        (Some(one), Some(other)) => one.0 == other.0,
        (None, Some(_)) | (Some(_), None) => false,
    }
}

fn same_base(one: Base, other: Base) -> bool
    ensures { IsTrue result → one ≡ other }
{
    match (one, other) {
        (Base::Gone, Base::Gone) | (Base::Call, Base::Call) | (Base::Field, Base::Field) => true,
        (Base::Item(one), Base::Item(other)) => one.number() == other.number(),
        (Base::Part(one), Base::Part(other)) => one.0 == other.0,
        _ => false,
    }
}

fn same_value(one: Value, other: Value) -> bool
    ensures { IsTrue result → one ≡ other }
{
    match (one, other) {
        (Value::Unset, Value::Unset) | (Value::Null, Value::Null) => true,
        (Value::Object(one), Value::Object(other)) | (Value::Maybe(one), Value::Maybe(other)) => {
            one.0 == other.0
        }
        (Value::Number(one), Value::Number(other)) => same_signs(one, other),
        _ => false,
    }
}

fn same_signs(one: Signs, other: Signs) -> bool
    ensures { IsTrue result → one ≡ other }
{
    one.minus_one == other.minus_one
        && one.below == other.below
        && one.zero == other.zero
        && one.above == other.above
        && same_number(one.only, other.only)
}

fn same_number(one: Option<i64>, other: Option<i64>) -> bool
    ensures { IsTrue result → one ≡ other }
{
    match (one, other) {
        (None, None) => true,
        (Some(one), Some(other)) => one == other,
        (None, Some(_)) | (Some(_), None) => false,
    }
}

fn same_owes(one: Owes, other: Owes) -> bool
    ensures { IsTrue result → one ≡ other }
{
    one.old == other.old
        && one.alive == other.alive
        && one.owned == other.owned
        && one.section == other.section
        && one.is_assumed == other.is_assumed
        && one.is_steady == other.is_steady
}

/// Returns whether two lists are the same.
fn same_items<T: Same>(one: &[T], other: &[T]) -> bool
    ensures { IsTrue result → one.now ≡ other.now }
{
    if one.len() != other.len() {
        return false;
    }
    for at in 0..one.len() {
        if !one[at].is_same(&other[at]) {
            return false;
        }
    }
    true
}

/// Returns whether two stores have the same contents.
pub(crate) fn same_store(one: &Store, other: &Store) -> bool
    ensures { IsTrue result → contents_of one.now ≡ contents_of other.now }
{
    one.stale == other.stale
        && one.is_detached == other.is_detached
        && same_items(one.values.as_slice(), other.values.as_slice())
        && same_items(one.objects.as_slice(), other.objects.as_slice())
        && same_items(one.cells.as_slice(), other.cells.as_slice())
        && same_items(one.sections.as_slice(), other.sections.as_slice())
        && same_items(one.facts.as_slice(), other.facts.as_slice())
}
