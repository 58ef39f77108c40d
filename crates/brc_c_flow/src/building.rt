//! The graph as it is made: a path is open at its end, and each event goes on with it.

use crate::addresses::PassedCell;
use crate::cells::PlainCell;
use crate::elements::{Element, LentElement};
use crate::entries::KeptArgument;
use crate::facts::KnownCondition;
use crate::habits::Habits;
use crate::names::Variable;
use crate::nulls::AskedField;
use crate::orders::KnownOrder;
use crate::outs::OutParameter;
use crate::own::OwnFunctions;
use crate::purpose::{Purpose, Returned};
use crate::reasons::FlowReason;
use crate::slices::Slice;
use crate::stop::{Stop, unread};
use crate::surroundings::Program;
use crate::traits::Traits;
use crate::usage::Usage;
use brc_c_graph::{Graph, LocalName, Node, NodeId, Ways, Words};
use brc_c_store::{Cell, Choice, Event, Local, Source};
use brc_c_table::Tables;
use brc_c_text::{Place, Symbol, Symbols};
use brc_c_tree::{ExpressionId, Function, Tree, TypeName};
use brc_c_types::{Types, types_of};
use std::alloc::{AllocError, Global};
use std::collections::{HashMap, HashSet};

/// Where paths go on after a condition.
#[derive(Clone, Copy)]
pub(crate) struct Branches {
    pub(crate) holds: NodeId,
    pub(crate) fails: NodeId,
}

impl Branches {
    /// Returns those of the negation.
    pub(crate) fn swapped(self) -> Branches {
        Branches {
            holds: self.fails,
            fails: self.holds,
        }
    }
}

/// A label, and whether its statement has come.
#[derive(Clone, Copy)]
pub(crate) struct Label {
    pub(crate) node: NodeId,
    /// Where it is, or the first `goto` that names it.
    pub(crate) place: Place,
    pub(crate) is_placed: bool,
}

/// A `switch` whose body is being read.
#[derive(Clone, Copy)]
pub(crate) struct Switch {
    pub(crate) value: ExpressionId,
    /// The name that has the value, if its sign is known.
    pub(crate) counted: Option<Local>,
    /// Where a path goes on whose value is none of the cases so far.
    pub(crate) rest: Option<(NodeId, Choice)>,
    pub(crate) default: Option<NodeId>,
}

/// An object that everybody knows by name, and the name that has it in the graph.
#[derive(Clone, Copy)]
pub(crate) struct KnownSingleton {
    pub(crate) symbol: Symbol,
    /// Whether it is a static object, which is named by its address.
    pub(crate) is_address: bool,
    pub(crate) local: Option<Local>,
}

/// What makes the graph of a function.
#[derive(Drop)]
pub(crate) struct Builder<'a> {
    pub(crate) alloc: Global,
    pub(crate) symbols: &'a Symbols,
    pub(crate) types: &'a Types,
    pub(crate) tables: &'a Tables,
    pub(crate) own: OwnFunctions<'a>,
    pub(crate) purpose: Purpose<'a>,
    pub(crate) usage: &'a Usage,
    pub(crate) function: &'a Function,
    pub(crate) tree: &'a Tree,
    /// The types of the expressions, and what else is known of them, by their places in the tree.
    pub(crate) typed: Vec<Option<TypeName>>,
    pub(crate) traits: Vec<Traits>,
    pub(crate) variables: HashMap<Symbol, Variable>,
    /// The fields that are used as those of objects.
    pub(crate) used_fields: HashSet<Symbol>,
    /// The variables that are asked whether they are NULL, or which sign they have.
    pub(crate) tested: HashSet<Symbol>,
    /// The variables to which a singleton is assigned, each with its name.
    pub(crate) singled: Vec<(Symbol, Symbol)>,
    /// The elements of variables that are followed, and the variables with an index that is no constant.
    pub(crate) elements: Vec<Element>,
    pub(crate) mixed: HashSet<Symbol>,
    pub(crate) lent: Vec<LentElement>,
    /// The parameters that are addresses of variables which are followed.
    pub(crate) outs: Vec<OutParameter>,
    /// The fields of parameters that are asked for at the ends, if the graph is made for a row.
    pub(crate) asked_fields: Vec<AskedField>,
    /// The variables that have slices, and those that have something else.
    pub(crate) slices: Vec<Slice>,
    pub(crate) habits: Habits,
    /// The fields that the function sets.
    pub(crate) set_fields: HashSet<Symbol>,
    /// The cells in memory that is no object's, and those that were read, by the places of their expressions.
    pub(crate) plain_cells: Vec<PlainCell>,
    pub(crate) cells_read: HashMap<usize, Cell>,
    /// The cells whose addresses functions of the program get.
    pub(crate) passed_cells: Vec<PassedCell>,
    pub(crate) conditions: Vec<KnownCondition>,
    pub(crate) orders: Vec<KnownOrder>,
    pub(crate) singletons: Vec<KnownSingleton>,
    pub(crate) labels: HashMap<Symbol, Label>,
    /// Where `break` and `continue` lead, the innermost last.
    pub(crate) breaks: Vec<NodeId>,
    pub(crate) continues: Vec<NodeId>,
    pub(crate) switches: Vec<Switch>,
    /// What the caller has passed, where it matters at the ends.
    pub(crate) kept: Vec<KeptArgument>,
    /// The ends, if the graph is made for a row.
    pub(crate) returns: Vec<Returned>,
    /// Whether the function gives an object or NULL.
    pub(crate) gives_objects: bool,
    /// The name that has got what a call gives which sets an exception if that is NULL, with nothing called since.
    pub(crate) just_given: Option<Local>,
    /// Whether some event is about an object.
    pub(crate) has_objects: bool,
    /// Whether texts say which one of several variables of a name is meant.
    pub(crate) is_exact: bool,
    pub(crate) graph: Graph,
    /// The end of the path, if some path comes here.
    pub(crate) open: Option<(NodeId, Choice)>,
}

impl<'a> Builder<'a> {
    pub(crate) fn new(
        alloc: Global,
        program: &Program<'a>,
        purpose: Purpose<'a>,
        function: &'a Function,
        tree: &'a Tree,
    ) -> Result<Builder<'a>, AllocError> {
        Ok(Builder {
            alloc,
            symbols: program.symbols,
            types: program.types,
            tables: program.tables,
            own: program.own,
            purpose,
            usage: program.usage,
            function,
            tree,
            typed: types_of(alloc, program.types, function)?,
            traits: Vec::new(alloc),
            variables: HashMap::new(alloc),
            used_fields: HashSet::new(alloc),
            tested: HashSet::new(alloc),
            singled: Vec::new(alloc),
            elements: Vec::new(alloc),
            mixed: HashSet::new(alloc),
            lent: Vec::new(alloc),
            outs: Vec::new(alloc),
            asked_fields: Vec::new(alloc),
            slices: Vec::new(alloc),
            habits: Habits::NONE,
            set_fields: HashSet::new(alloc),
            plain_cells: Vec::new(alloc),
            cells_read: HashMap::new(alloc),
            passed_cells: Vec::new(alloc),
            conditions: Vec::new(alloc),
            orders: Vec::new(alloc),
            singletons: Vec::new(alloc),
            labels: HashMap::new(alloc),
            breaks: Vec::new(alloc),
            continues: Vec::new(alloc),
            switches: Vec::new(alloc),
            kept: Vec::new(alloc),
            returns: Vec::new(alloc),
            gives_objects: false,
            just_given: None,
            has_objects: false,
            is_exact: true,
            graph: Graph::new(alloc),
            open: None,
        })
    }

    /// Adds an event at the end of the path, which goes on after it.
    pub(crate) fn emit(
        &mut self,
        event: Event,
        place: Place,
        words: Option<Words>,
    ) -> Result<NodeId, Stop> {
        let id = self.graph.add_node(Node {
            event,
            ways: Ways::NONE,
            place,
            words,
        })?;
        if let Some((from, choice)) = self.open {
            self.graph.set_way(from, choice, id);
        }
        self.open = Some((id, Choice::Yes));
        Ok(id)
    }

    /// Adds the last event of the path.
    pub(crate) fn end(&mut self, event: Event, place: Place) -> Result<(), Stop> {
        self.emit(event, place, None)?;
        self.open = None;
        Ok(())
    }

    /// Adds a question at the end of the path, which goes on in two ways.
    pub(crate) fn ask(
        &mut self,
        event: Event,
        place: Place,
        words: Option<Words>,
        branches: Branches,
    ) -> Result<(), Stop> {
        let id = self.emit(event, place, words)?;
        self.graph.set_way(id, Choice::Yes, branches.holds);
        self.graph.set_way(id, Choice::No, branches.fails);
        self.open = None;
        Ok(())
    }

    /// Returns a new node at which paths may meet. No path leads to it.
    pub(crate) fn meeting(&mut self, place: Place) -> Result<NodeId, Stop> {
        Ok(
            self.graph.add_node(Node {
                event: Event::Pass,
                ways: Ways::NONE,
                place,
                words: None,
            })?,
        )
    }

    pub(crate) fn branches(&mut self, place: Place) -> Result<Branches, Stop> {
        Ok(Branches {
            holds: self.meeting(place)?,
            fails: self.meeting(place)?,
        })
    }

    /// Leads the path to a node, where it ends.
    pub(crate) fn jump(&mut self, to: NodeId) {
        if let Some((from, choice)) = self.open {
            self.graph.set_way(from, choice, to);
        }
        self.open = None;
    }

    /// Leads the path to a node, and goes on from there.
    pub(crate) fn land(&mut self, at: NodeId) {
        self.jump(at);
        self.open = Some((at, Choice::Yes));
    }

    /// Goes on from a node after a choice.
    pub(crate) fn resume(&mut self, at: NodeId, choice: Choice) {
        self.open = Some((at, choice));
    }

    /// Adds a copy of something to a name.
    pub(crate) fn copy(&mut self, to: Local, from: Source, place: Place) -> Result<(), Stop> {
        if from != Source::Local(to) {
            self.emit(Event::Copy { to, from }, place, None)?;
        }
        Ok(())
    }

    /// Returns a new name for the value of an expression.
    pub(crate) fn unnamed(&mut self) -> Result<Local, Stop> {
        Ok(
            self.graph.add_local(LocalName {
                name: None,
                is_parameter: false,
            })?,
        )
    }

    /// Returns the place of an expression: that of its first lexeme.
    pub(crate) fn place_of(&self, id: ExpressionId) -> Place {
        match self.tree.expression_place(self.leftmost(id)) {
            Some(place) => place,
            None => self.function.place,
        }
    }

    pub(crate) fn stop_at(&self, id: ExpressionId, reason: FlowReason) -> Stop {
        unread(self.place_of(id), reason)
    }

    /// Notes that something is assumed of what the words name.
    pub(crate) fn assume(&mut self, words: Words) -> Result<(), Stop> {
        Ok(self.graph.assume(words)?)
    }
}
