//! Parameters that are addresses of the caller's variables: what is there is followed as a variable of the function.

use crate::building::Builder;
use crate::names::Kind;
use crate::operand::Operand;
use crate::own::{LeftObject, OwnOut};
use crate::passing::letter;
use crate::purpose::Purpose;
use crate::references::Counting;
use crate::stop::Stop;
use brc_c_graph::LocalName;
use brc_c_store::{Calling, Event, Gives, Local, Source};
use brc_c_table::Takes;
use brc_c_text::{Place, Symbol};
use brc_c_tree::{Binary, Expression, ExpressionId, List, Statement, Unary};

/// A parameter that is the address of a variable.
#[derive(Clone, Copy)]
pub(crate) struct OutParameter {
    pub(crate) name: Symbol,
    /// Its number, from 0.
    pub(crate) number: usize,
    /// The name of the variable.
    pub(crate) local: Local,
    /// The names that keep what is there at the entry, and have what is there at the ends.
    pub(crate) first: Local,
    pub(crate) last: Local,
}

impl<'a> Builder<'a> {
    /// Finds the parameters that are addresses of variables of objects, which the function sets, and gives names to
    /// these variables.
    pub(crate) fn find_outs(&mut self) -> Result<(), Stop> {
        let function = self.function;
        for (number, parameter) in function.parameters.iter().enumerate() {
            if let Some(name) = parameter.name {
                let is_pointer = self.kind(name) == Some(Kind::Objects);
                if is_pointer && self.is_set_through(name) && self.is_only_followed(name) {
                    self.add_out(name, number)?;
                }
            }
        }
        Ok(())
    }

    fn add_out(&mut self, name: Symbol, number: usize) -> Result<(), Stop> {
        let text = String::from_utf8_lossy(self.alloc, self.symbols.text(name))?;
        let words = self.graph.add_words(format!(in self.alloc; "*{text}")?)?;
        let local = self.graph.add_local(LocalName {
            name: Some(words),
            is_parameter: false,
        })?;
        let first = self.unnamed()?;
        let last = self.unnamed()?;
        self.has_objects = true;
        self.outs.push(OutParameter {
            name,
            number,
            local,
            first,
            last,
        })?;
        Ok(())
    }

    /// Returns the parameter of this name, if it is such an address.
    pub(crate) fn out_of(&self, name: Symbol) -> Option<OutParameter> {
        for out in self.outs.iter() {
            if out.name == name {
                return Some(*out);
            }
        }
        None
    }

    /// Returns the name of the variable whose address an expression is, if it is such a parameter.
    pub(crate) fn out_passed(&self, id: ExpressionId) -> Option<Local> {
        Some(self.out_of(self.name_in(id)?)?.local)
    }

    /// Returns the value of a parameter that is a pointer to objects. For the row of the function it isn't NULL, since
    /// the caller wants to know what is stored there.
    pub(crate) fn out_pointer(&self, name: Symbol) -> Operand {
        match (self.purpose, self.out_of(name)) {
            (Purpose::Row { .. }, Some(out)) => Operand::Address(out.local),
            _ => Operand::Plain,
        }
    }

    /// Returns whether the function sets what a pointer points to, or passes the pointer to one that does.
    fn is_set_through(&self, name: Symbol) -> bool {
        for (expression, _) in self.tree.expressions() {
            let is_set = match *expression {
                Expression::Assign { left, .. } => self.is_behind(left, name),
                Expression::Call {
                    function,
                    arguments,
                } => self.sets_through(function, arguments, name),
                _ => false,
            };
            if is_set {
                return true;
            }
        }
        false
    }

    fn sets_through(&self, function: ExpressionId, arguments: List, name: Symbol) -> bool {
        let tree = self.tree;
        let ids = tree.operands(arguments);
        if let Some(Expression::Name(called)) = tree.expression(function) {
            if let Some(counting) = Counting::of(self.symbols.text(called)) {
                return match ids.first() {
                    Some(first) => counting.gives_up() && self.is_behind(*first, name),
                    None => false,
                };
            }
        }
        let Some(callee) = self.callee_of(function) else {
            return false;
        };
        for (at, id) in ids.iter().enumerate() {
            if self.name_in(*id) == Some(name) {
                let is_own = match callee.own {
                    Some(own) => own.out(at).is_some(),
                    None => false,
                };
                return is_own || is_out(letter(callee.row.takes.as_slice(), at));
            }
        }
        false
    }

    /// Returns whether an expression is what a pointer points to.
    fn is_behind(&self, id: ExpressionId, name: Symbol) -> bool {
        match self.tree.expression(self.without_casts(id)) {
            Some(expression) => self.pointer_in(expression) == Some(name),
            None => false,
        }
    }

    /// Returns the pointer of which an expression is what it points to.
    fn pointer_in(&self, expression: Expression) -> Option<Symbol> {
        match expression {
            Expression::Unary {
                operator: Unary::Dereference,
                operand,
            } => self.name_in(operand),
            Expression::Index { array, index } if self.constant_in(index) == Some(0) => {
                self.name_in(array)
            }
            _ => None,
        }
    }

    /// Returns whether a pointer is only used to come to what is there, asked for, or passed to calls: no other pointer
    /// has its value.
    fn is_only_followed(&self, name: Symbol) -> bool {
        let mut uses: usize = 0;
        let mut known: usize = 0;
        for (expression, _) in self.tree.expressions() {
            if matches!(*expression, Expression::Name(used) if used == name) {
                uses = uses.saturating_add(1);
            }
            known = known.saturating_add(self.known_uses(*expression, name));
        }
        for (statement, _) in self.tree.statements() {
            if let Some(condition) = condition_of(*statement) {
                known = known.saturating_add(self.count_name(condition, name));
            }
        }
        uses == known
    }

    /// Returns how often a pointer is used in an expression in one of these ways.
    fn known_uses(&self, expression: Expression, name: Symbol) -> usize {
        if self.pointer_in(expression) == Some(name) {
            return 1;
        }
        match expression {
            Expression::Unary {
                operator: Unary::Not,
                operand,
            } => self.count_name(operand, name),
            Expression::Conditional { condition, .. } => self.count_name(condition, name),
            Expression::Binary {
                operator: Binary::And | Binary::Or | Binary::Equal | Binary::NotEqual,
                left,
                right,
            } => self
                .count_name(left, name)
                .saturating_add(self.count_name(right, name)),
            Expression::Call { arguments, .. } => {
                let mut count: usize = 0;
                for argument in self.tree.operands(arguments) {
                    count = count.saturating_add(self.count_name(*argument, name));
                }
                count
            }
            _ => 0,
        }
    }

    fn count_name(&self, id: ExpressionId, name: Symbol) -> usize {
        if self.name_in(id) == Some(name) { 1 } else { 0 }
    }

    /// Adds what is at the entry where parameters point to.
    pub(crate) fn begin_outs(&mut self) -> Result<(), Stop> {
        for at in 0..self.outs.len() {
            if let Some(out) = self.outs.get(at).copied() {
                match self.purpose {
                    Purpose::Row { .. } => self.lend_out(out)?,
                    Purpose::Verdict(_) => self.begin_out(out)?,
                }
            }
        }
        Ok(())
    }

    /// For the row of the function the caller lends what is there.
    fn lend_out(&mut self, out: OutParameter) -> Result<(), Stop> {
        let place = self.function.place;
        self.copy(out.local, Source::Null, place)?;
        let event = Event::Lend {
            to: out.local,
            lender: None,
            is_optional: true,
        };
        self.emit(event, place, None)?;
        self.copy(out.first, Source::Local(out.local), place)
    }

    /// The function owns what is there if it gives it up, and otherwise knows nothing of it.
    fn begin_out(&mut self, out: OutParameter) -> Result<(), Stop> {
        let place = self.function.place;
        match self.own_out(out.number) {
            Some(own) if own.is_replaced => {
                let event = Event::Call {
                    gives: Gives::New {
                        is_fresh: false,
                        is_assumed: false,
                    },
                    into: Some(out.local),
                    calling: Calling::Succeeds,
                };
                self.emit(event, place, None)?;
                Ok(())
            }
            Some(own) if !own.is_read => self.copy(out.local, Source::Null, place),
            Some(_) => self.copy(out.local, Source::Unknown, place),
            None => {
                if let Some(
                    LocalName {
                        name: Some(words),
                        ..
                    },
                ) = self.graph.local(out.local)
                {
                    self.assume(words)?;
                }
                self.copy(out.local, Source::Unknown, place)
            }
        }
    }

    /// Returns what the function itself does where a parameter points to, as its own row says.
    fn own_out(&self, number: usize) -> Option<OwnOut> {
        match self.purpose {
            Purpose::Verdict(Some(own)) => own.out(number),
            _ => None,
        }
    }

    /// Adds that what is where parameters point to is the caller's after an exit, as far as the row says so.
    pub(crate) fn return_outs(&mut self, fails: bool, place: Place) -> Result<(), Stop> {
        if let Purpose::Row { .. } = self.purpose {
            return Ok(());
        }
        for at in 0..self.outs.len() {
            if let Some(out) = self.outs.get(at).copied() {
                if let Some(event) = self.returned_out(out, fails) {
                    self.emit(event, place, None)?;
                }
            }
        }
        Ok(())
    }

    /// Returns the event by which the caller has what is where a parameter points to.
    fn returned_out(&self, out: OutParameter, fails: bool) -> Option<Event> {
        let Some(own) = self.own_out(out.number) else {
            return Some(Event::HandOver(out.local));
        };
        let left = if fails { own.failure } else { own.success };
        if own.is_replaced && !left.is_freed() {
            return Some(Event::Give(out.local));
        }
        match left.object {
            LeftObject::None => None,
            LeftObject::New if !own.is_read => Some(Event::Give(out.local)),
            LeftObject::New | LeftObject::Unknown => Some(Event::HandOver(out.local)),
            LeftObject::Borrowed(_) => Some(Event::UseOrNull(out.local)),
        }
    }

    /// Adds what is asked for at an end, if the graph is made for a row.
    pub(crate) fn ask_at_end(&mut self, place: Place) -> Result<(), Stop> {
        if let Purpose::Verdict(_) = self.purpose {
            return Ok(());
        }
        for at in 0..self.outs.len() {
            if let Some(out) = self.outs.get(at).copied() {
                self.copy(out.last, Source::Local(out.local), place)?;
            }
        }
        self.ask_fields(place)
    }
}

fn condition_of(statement: Statement) -> Option<ExpressionId> {
    match statement {
        Statement::If { condition, .. }
        | Statement::While { condition, .. }
        | Statement::DoWhile { condition, .. }
        | Statement::For {
            condition: Some(condition),
            ..
        } => Some(condition),
        _ => None,
    }
}

/// Returns whether a function of the table stores an object where an argument points to.
fn is_out(takes: Takes) -> bool {
    matches!(
        takes,
        Takes::Out | Takes::OutBorrowed | Takes::InOut | Takes::InOutOrNull
    )
}
