use crate::own::{NullField, OwnRow};
use brc_c_graph::{Graph, NodeId};
use brc_c_store::{Local, Signs};

/// What a graph is made for.
#[derive(Clone, Copy)]
pub(crate) enum Purpose<'a> {
    /// The verdict on a function, whose own row this is.
    Verdict(Option<&'a OwnRow>),
    /// The row of a function. A helper may steal its arguments, and give what it borrows.
    Row { is_helper: bool },
}

/// What a function returns at an end.
#[derive(Clone, Copy)]
pub enum ReturnedValue {
    /// Nothing, or what no table speaks of.
    Nothing,
    Null,
    /// What a name has: an object or NULL.
    Object(Local),
    /// An object that everybody knows by name, with a reference of its own.
    Singleton,
    Number(Signs),
    /// The number that a name has.
    Counted(Local),
}

/// An end of a function.
#[derive(Clone, Copy)]
pub struct Returned {
    pub node: NodeId,
    pub value: ReturnedValue,
}

/// A parameter in a graph.
#[derive(Clone, Copy)]
pub struct ArgumentNames {
    /// The name of the parameter, if it has objects.
    pub local: Option<Local>,
    /// The name that keeps what the caller has passed, if the graph asks for it at its ends.
    pub kept: Option<Local>,
}

/// A parameter that is the address of a variable, in a graph.
#[derive(Clone, Copy)]
pub struct OutNames {
    /// The number of the parameter, from 0.
    pub argument: usize,
    /// The name of the variable.
    pub local: Local,
    /// The names that keep what is there at the entry, and have what is there at the ends.
    pub first: Local,
    pub last: Local,
}

/// A field of a parameter, and the name that has what is in the field at the ends.
#[derive(Clone, Copy)]
pub struct FieldName {
    pub null: NullField,
    pub local: Local,
}

/// The graph of a function, and what its row is made of.
#[derive(Drop)]
pub struct RowFlow {
    pub graph: Graph,
    pub gives_objects: bool,
    pub returns: Vec<Returned>,
    /// The parameters in their order.
    pub arguments: Vec<ArgumentNames>,
    pub outs: Vec<OutNames>,
    pub fields: Vec<FieldName>,
}
