ghost use Rattle.std.specs.Prelude.{◌≡◌};
ghost use Rattle.brc_c_graph.specs.Nodes.{node_at, local_at};

use crate::local_name::LocalName;
use crate::node::{Node, NodeId, Words};
use brc_c_store::{Choice, Field, Local};
use std::alloc::{AllocError, Global};

/// What a C function does with references. The nodes name each other by their places.
#[derive(Drop)]
pub struct Graph {
    nodes: Vec<Node>,
    locals: Vec<LocalName>,
    /// The names of fields, and of variables that are there after the call, too.
    fields: Vec<Words>,
    texts: Vec<String>,
    /// The functions of which something is assumed, each once.
    assumed: Vec<Words>,
    /// The names that are asked for where a path ends, each with the node there.
    kept: Vec<(NodeId, Local)>,
}

impl Graph {
    /// Returns the graph without nodes.
    pub fn new(alloc: Global) -> Graph {
        Graph {
            nodes: Vec::new(alloc),
            locals: Vec::new(alloc),
            fields: Vec::new(alloc),
            texts: Vec::new(alloc),
            assumed: Vec::new(alloc),
            kept: Vec::new(alloc),
        }
    }

    /// Returns a node of the graph. Of another graph's it may know nothing.
    pub fn node(&self, id: NodeId) -> Option<Node>
        ensures { result ≡ node_at self.now id }
    {
        self.nodes.get(id.0).copied()
    }

    /// Returns the nodes, by their places.
    pub fn nodes(&self) -> &[Node] {
        self.nodes.as_slice()
    }

    pub fn add_node(&mut self, node: Node) -> Result<NodeId, AllocError> {
        let id = NodeId(self.nodes.len());
        self.nodes.push(node)?;
        Ok(id)
    }

    /// Says where a path goes on after a choice at a node.
    pub fn set_way(&mut self, from: NodeId, choice: Choice, to: NodeId) {
        if let Some(node) = self.nodes.get_mut(from.0) {
            match choice {
                Choice::Yes => node.ways.yes = Some(to),
                Choice::No => node.ways.no = Some(to),
                Choice::Missing => node.ways.missing = Some(to),
            }
        }
    }

    pub fn add_local(&mut self, name: LocalName) -> Result<Local, AllocError> {
        let local = Local(self.locals.len());
        self.locals.push(name)?;
        Ok(local)
    }

    /// Returns what a name of the graph is in the source.
    pub fn local(&self, local: Local) -> Option<LocalName>
        ensures { result ≡ local_at self.now local }
    {
        self.locals.get(local.0).copied()
    }

    /// Returns the names, by their numbers.
    pub fn locals(&self) -> &[LocalName] {
        self.locals.as_slice()
    }

    /// Returns the field of this name.
    pub fn add_field(&mut self, name: Words) -> Result<Field, AllocError> {
        for (at, known) in self.fields.iter().enumerate() {
            if self.words(*known) == self.words(name) {
                return Ok(Field(at));
            }
        }
        let field = Field(self.fields.len());
        self.fields.push(name)?;
        Ok(field)
    }

    /// Returns the names of fields, by their numbers.
    pub fn fields(&self) -> &[Words] {
        self.fields.as_slice()
    }

    pub fn add_words(&mut self, text: String) -> Result<Words, AllocError> {
        let words = Words(self.texts.len());
        self.texts.push(text)?;
        Ok(words)
    }

    /// Returns a text for reports.
    pub fn words(&self, words: Words) -> &str {
        match self.texts.get(words.0) {
            Some(text) => text.as_str(),
            None => "",
        }
    }

    /// Notes that something is assumed of the function with this name.
    pub fn assume(&mut self, name: Words) -> Result<(), AllocError> {
        for known in self.assumed.iter() {
            if self.words(*known) == self.words(name) {
                return Ok(());
            }
        }
        self.assumed.push(name)?;
        Ok(())
    }

    /// Returns the names of the functions of which something is assumed.
    pub fn assumed(&self) -> &[Words] {
        self.assumed.as_slice()
    }

    /// Notes that a name is asked for at a node where a path ends.
    pub fn keep_at(&mut self, end: NodeId, local: Local) -> Result<(), AllocError> {
        self.kept.push((end, local))?;
        Ok(())
    }

    /// Returns the names that are asked for where a path ends, each with the node there.
    pub fn kept(&self) -> &[(NodeId, Local)] {
        self.kept.as_slice()
    }
}
