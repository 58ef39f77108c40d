//! The function's parameters and variables.

use crate::building::Builder;
use crate::stop::Stop;
use brc_c_graph::LocalName;
use brc_c_store::{Event, Local};
use brc_c_text::Symbol;
use brc_c_tree::{Declaration, Statement, TypeName};

/// What a variable has.
#[derive(Clone, Copy, PartialEq, Eq)]
pub(crate) enum Kind {
    Object,
    /// A number, or a pointer that is no object.
    Plain,
    /// An object that is there after the call, too.
    Static,
    /// An array of objects.
    Array,
    /// A pointer to objects.
    Objects,
}

/// A parameter or a variable.
#[derive(Clone, Copy)]
pub(crate) struct Variable {
    pub(crate) kind: Kind,
    pub(crate) type_name: TypeName,
    pub(crate) is_parameter: bool,
    /// Whether it is there after the call, too.
    pub(crate) is_static: bool,
    /// Its name in the graph, if its value is followed.
    pub(crate) local: Option<Local>,
}

impl<'a> Builder<'a> {
    pub(crate) fn variable(&self, name: Symbol) -> Option<Variable> {
        self.variables.get(&name).copied()
    }

    pub(crate) fn is_parameter(&self, name: Symbol) -> bool {
        match self.variable(name) {
            Some(variable) => variable.is_parameter,
            None => false,
        }
    }

    /// Finds the parameters and variables.
    pub(crate) fn find_variables(&mut self) -> Result<(), Stop> {
        let function = self.function;
        for parameter in &function.parameters {
            if let Some(name) = parameter.name {
                let variable = Variable {
                    kind: self.kind_of(parameter.type_name),
                    type_name: parameter.type_name,
                    is_parameter: true,
                    is_static: false,
                    local: None,
                };
                self.add_variable(name, variable)?;
            }
        }
        let tree = self.tree;
        for (statement, _) in tree.statements() {
            if let Statement::Declare(list) = statement {
                for declared in tree.declarations(*list) {
                    let variable = self.declared_variable(declared);
                    self.add_variable(declared.name, variable)?;
                }
            }
        }
        Ok(())
    }

    fn declared_variable(&self, declared: &Declaration) -> Variable {
        let kind = match self.kind_of(declared.type_name) {
            Kind::Object if declared.is_static => Kind::Static,
            Kind::Objects if declared.dimensions == 1 && !declared.is_static => Kind::Array,
            kind => kind,
        };
        Variable {
            kind,
            type_name: declared.type_name,
            is_parameter: false,
            is_static: declared.is_static,
            local: None,
        }
    }

    fn kind_of(&self, type_name: TypeName) -> Kind {
        if self.types.is_object(self.symbols, type_name) {
            return Kind::Object;
        }
        match type_name.stars.checked_sub(1) {
            Some(stars)
                if self
                    .types
                    .is_object(self.symbols, TypeName { stars, ..type_name }) => { Kind::Objects }
            _ => Kind::Plain,
        }
    }

    fn add_variable(&mut self, name: Symbol, variable: Variable) -> Result<(), Stop> {
        if self.variable(name).is_none() {
            self.variables.insert(name, variable)?;
        }
        Ok(())
    }

    /// Takes a variable for one of objects.
    pub(crate) fn make_object(&mut self, name: Symbol) {
        if let Some(variable) = self.variables.get_mut(&name) {
            variable.kind = if variable.is_static {
                Kind::Static
            } else {
                Kind::Object
            };
        }
    }

    /// Gives names in the graph to the variables that are followed: those of objects, and those that are asked for.
    pub(crate) fn name_variables(&mut self) -> Result<(), Stop> {
        let function = self.function;
        for parameter in &function.parameters {
            if let Some(name) = parameter.name {
                self.name_variable(name)?;
            }
        }
        let tree = self.tree;
        for (statement, _) in tree.statements() {
            if let Statement::Declare(list) = statement {
                for declared in tree.declarations(*list) {
                    self.name_variable(declared.name)?;
                }
            }
        }
        Ok(())
    }

    fn name_variable(&mut self, name: Symbol) -> Result<(), Stop> {
        let Some(variable) = self.variable(name) else {
            return Ok(());
        };
        let is_followed = match variable.kind {
            Kind::Object => true,
            Kind::Plain => self.tested.contains(&name),
            Kind::Static | Kind::Array | Kind::Objects => false,
        };
        if !is_followed || variable.local.is_some() {
            return Ok(());
        }
        self.has_objects = self.has_objects || variable.kind == Kind::Object;
        let words = self.words_of_symbol(name)?;
        let local = self.graph.add_local(LocalName {
            name: Some(words),
            is_parameter: variable.is_parameter,
        })?;
        if let Some(found) = self.variables.get_mut(&name) {
            found.local = Some(local);
        }
        Ok(())
    }

    /// Adds what the caller lends: each parameter of objects has one, or NULL.
    pub(crate) fn lend_parameters(&mut self) -> Result<(), Stop> {
        let function = self.function;
        for (number, parameter) in function.parameters.iter().enumerate() {
            let Some(name) = parameter.name else {
                continue;
            };
            let Some(
                Variable {
                    kind: Kind::Object,
                    type_name,
                    local: Some(to),
                    ..
                },
            ) = self.variable(name)
            else {
                continue;
            };
            self.begin_parameter(number, to)?;
            // Of what a C library hands on nobody knows whose it is.
            if !self.types.is_object(self.symbols, type_name) {
                self.emit(Event::Assume(to), function.place, None)?;
            }
            self.keep_parameter(number, to)?;
        }
        Ok(())
    }
}
