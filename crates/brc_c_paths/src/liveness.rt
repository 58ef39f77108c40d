//! Which names and conditions a path reads again.

ghost use Rattle.std.specs.Prelude.{◌≡◌, ◌/◌};
ghost use Rattle.brc_c_paths.specs.Lives.{is_read, is_asked, is_met, name_bit, fact_bit, field_bit, has_bit, word_of};
ghost use Rattle.brc_c_paths.specs.Lives.{mask};

use crate::postorder::{Postorder, postorder_of};
use crate::reading::{fact_forgotten, fact_read, field_read, name_assigned, names_read};
use brc_c_graph::{Graph, Node, NodeId, Ways};
use brc_c_store::{Event, Fact, Field, Local};
use std::alloc::{AllocError, Global};

const WORD: usize = 64;

/// For each node the names, the conditions and the fields that some path from there reads before it assigns them.
#[derive(Drop)]
pub struct Liveness {
    names: usize,
    facts: usize,
    fields: usize,
    /// How many words a node has.
    width: usize,
    /// A bit for each name, then for each condition, and then for each field, node by node.
    words: Vec<u64>,
}

impl Liveness {
    /// Returns what the paths of a graph read.
    pub fn of(alloc: Global, graph: &Graph) -> Result<Liveness, AllocError> {
        let names = graph.locals().len();
        let facts = fact_count(graph);
        let fields = graph.fields().len();
        let bits = names.saturating_add(facts).saturating_add(fields);
        let width = bits.saturating_add(WORD - 1) / WORD;
        let mut words = Vec::new(alloc);
        for _ in 0..graph.nodes().len().saturating_mul(width) {
            words.push(0)?;
        }
        let mut live = Liveness {
            names,
            facts,
            fields,
            width,
            words,
        };
        let order = postorder_of(alloc, graph)?;
        live.fill(graph, &order);
        Ok(live)
    }

    /// Returns whether a path from the node reads the name again.
    pub fn is_read(&self, node: NodeId, local: Local) -> bool
        ensures { result ≡ is_read self.now node local }
    {
        match self.name_bit(local) {
            Some(bit) => self.has(node, bit),
            None => true,
        }
    }

    /// Returns whether a path from the node asks for the condition again.
    pub fn is_asked(&self, node: NodeId, fact: Fact) -> bool
        ensures { result ≡ is_asked self.now node fact }
    {
        match self.fact_bit(fact) {
            Some(bit) => self.has(node, bit),
            None => true,
        }
    }

    /// Returns whether a path from the node reads or sets the field of an object again.
    pub fn is_met(&self, node: NodeId, field: Field) -> bool
        ensures { result ≡ is_met self.now node field }
    {
        match self.field_bit(field) {
            Some(bit) => self.has(node, bit),
            None => true,
        }
    }

    fn name_bit(&self, local: Local) -> Option<usize>
        ensures { result ≡ name_bit self.now local }
    {
        if local.0 < self.names {
            Some(local.0)
        } else {
            None
        }
    }

    fn fact_bit(&self, fact: Fact) -> Option<usize>
        ensures { result ≡ fact_bit self.now fact }
    {
        if fact.0 < self.facts {
            Some(self.names.saturating_add(fact.0))
        } else {
            None
        }
    }

    fn field_bit(&self, field: Field) -> Option<usize>
        ensures { result ≡ field_bit self.now field }
    {
        if field.0 < self.fields {
            Some(
                self.names
                    .saturating_add(self.facts)
                    .saturating_add(field.0),
            )
        } else {
            None
        }
    }

    fn has(&self, node: NodeId, bit: usize) -> bool
        ensures { result ≡ has_bit self.now node bit }
    {
        self.word(Some(node), bit / WORD) & mask(Some(bit), bit / WORD) != 0
    }

    /// Returns a word of a node. Where no path goes, nothing is read.
    fn word(&self, node: Option<NodeId>, word: usize) -> u64
        ensures { result ≡ word_of self.now node word }
    {
        let Some(node) = node else {
            return 0;
        };
        let at = node.0.saturating_mul(self.width).saturating_add(word);
        self.words.get(at).copied().unwrap_or(0)
    }

    /// Each bit travels at least one node a pass. Without loops one pass takes each to its place.
    fn fill(&mut self, graph: &Graph, order: &Postorder) {
        for _ in 0..=order.nodes.len() {
            let is_changed = self.pass(graph, order.nodes.as_slice());
            if !is_changed || !order.has_loop {
                return;
            }
        }
    }

    /// Takes each node once. Returns whether something is new.
    fn pass(&mut self, graph: &Graph, order: &[NodeId]) -> bool {
        let mut is_changed = false;
        for id in order {
            if let Some(node) = graph.node(*id) {
                if self.update(graph, *id, &node) {
                    is_changed = true;
                }
            }
        }
        is_changed
    }

    /// Adds what is read from a node on. Returns whether something is new.
    fn update(&mut self, graph: &Graph, id: NodeId, node: &Node) -> bool {
        let mut is_changed = self.add_ways(id, node);
        for bit in self.bits_read(node.event) {
            is_changed = self.add_bit(id, bit) || is_changed;
        }
        // What is asked for where a path ends.
        if node.ways == Ways::NONE {
            for (end, local) in graph.kept() {
                if *end == id {
                    let bit = self.name_bit(*local);
                    is_changed = self.add_bit(id, bit) || is_changed;
                }
            }
        }
        is_changed
    }

    fn bits_read(&self, event: Event) -> [Option<usize>; 4] {
        let [first, second] = names_read(event);
        [
            self.bit_of_name(first),
            self.bit_of_name(second),
            self.bit_of_fact(fact_read(event)),
            self.bit_of_field(field_read(event)),
        ]
    }

    fn bit_of_name(&self, local: Option<Local>) -> Option<usize> {
        self.name_bit(local?)
    }

    fn bit_of_fact(&self, fact: Option<Fact>) -> Option<usize> {
        self.fact_bit(fact?)
    }

    fn bit_of_field(&self, field: Option<Field>) -> Option<usize> {
        self.field_bit(field?)
    }

    /// Adds what is read behind a node, but for what its event assigns or forgets.
    fn add_ways(&mut self, id: NodeId, node: &Node) -> bool {
        let assigned = self.bit_of_name(name_assigned(node.event));
        let forgotten = self.bit_of_fact(fact_forgotten(node.event));
        let mut is_changed = false;
        for word in 0..self.width {
            let yes = self.word(node.ways.yes, word) & !mask(assigned, word);
            let after = yes | self.word(node.ways.no, word) | self.word(node.ways.missing, word);
            let live = after & !mask(forgotten, word);
            is_changed = self.add(id, word, live) || is_changed;
        }
        is_changed
    }

    fn add_bit(&mut self, id: NodeId, bit: Option<usize>) -> bool {
        match bit {
            Some(bit) => self.add(id, bit / WORD, mask(Some(bit), bit / WORD)),
            None => false,
        }
    }

    /// Adds bits to a word of a node. Returns whether one is new.
    fn add(&mut self, id: NodeId, word: usize, bits: u64) -> bool {
        let at = id.0.saturating_mul(self.width).saturating_add(word);
        match self.words.get_mut(at) {
            Some(old) => {
                let is_new = bits & !*old != 0;
                *old |= bits;
                is_new
            }
            None => false,
        }
    }
}

/// Returns the bit in this word, or 0 if it is in another one.
fn mask(bit: Option<usize>, word: usize) -> u64
    ensures { result ≡ mask bit word }
{
    match bit {
        Some(bit) if bit / WORD == word => 1u64.wrapping_shl((bit % WORD) as u32),
        _ => 0,
    }
}

/// Returns how many conditions the events of a graph speak of.
fn fact_count(graph: &Graph) -> usize {
    let mut count = 0;
    for node in graph.nodes() {
        for fact in [fact_read(node.event), fact_forgotten(node.event)] {
            if let Some(fact) = fact {
                count = fact.0.saturating_add(1).max(count);
            }
        }
    }
    count
}
