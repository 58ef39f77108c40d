use crate::cursor::Cursor;
use crate::ending::{Ending, Staying};
use crate::pending::Pending;
use crate::stop::{Stop, not_read};
use crate::type_names::TypeNames;
use brc_c_text::{Lexeme, LexemeKind, Place, Symbol, Symbols};
use brc_c_tree::{
    Expected, Expression, ExpressionId, List, Reason, Statement, StatementId, Tree, TypeName,
    names_objects,
};
use std::alloc::{AllocError, Global};
use std::collections::{HashMap, HashSet};

/// A variable of a block that is being read.
#[derive(Clone, Copy)]
struct InScope {
    name: Symbol,
    /// The symbol that it has in the tree.
    symbol: Symbol,
}

/// What reads the body of a function.
#[derive(Drop)]
pub(crate) struct Parser<'a> {
    pub(crate) alloc: Global,
    pub(crate) cursor: Cursor<'a>,
    pub(crate) symbols: &'a Symbols,
    pub(crate) types: &'a TypeNames,
    /// The names of the variables and parameters that are declared so far, each with the number of its next one, ..
    variables: HashMap<Symbol, u32>,
    /// .. and those whose blocks are being read, the innermost last.
    scope: Vec<InScope>,
    /// How many blocks are being read.
    blocks: u32,
    /// The types that the function itself declares.
    own_types: HashSet<Symbol>,
    pub(crate) tree: Tree,
    /// The operators of all expressions that are being read, the innermost's last.
    pub(crate) pending: Vec<Pending>,
    /// What the function gives.
    pub(crate) result: TypeName,
    /// The function that the last attribute says to be called at the end of a variable.
    pub(crate) cleanup: Option<Symbol>,
    /// The variables whose end calls a function, of the blocks that are being read, the innermost's last.
    pub(crate) endings: Vec<Ending>,
    pub(crate) staying: Staying,
}

impl<'a> Parser<'a> {
    pub(crate) fn new(
        alloc: Global,
        cursor: Cursor<'a>,
        symbols: &'a Symbols,
        types: &'a TypeNames,
    ) -> Parser<'a> {
        Parser {
            alloc,
            cursor,
            symbols,
            types,
            variables: HashMap::new(alloc),
            scope: Vec::new(alloc),
            blocks: 0,
            own_types: HashSet::new(alloc),
            tree: Tree::new(alloc),
            pending: Vec::new(alloc),
            result: types.whole_number(),
            cleanup: None,
            endings: Vec::new(alloc),
            staying: Staying {
                at_break: 0,
                at_continue: 0,
            },
        }
    }

    /// Adds a variable of the block that is being read, and returns its symbol: the name's own, unless it is another
    /// variable of that name, or one outside the function may be meant before its block and after it.
    pub(crate) fn declare(&mut self, name: Symbol) -> Result<Symbol, AllocError> {
        let number = match self.variables.get(&name).copied() {
            Some(next) => next,
            None if self.blocks > 1 => 1,
            None => 0,
        };
        let symbol = name.of_variable(number);
        self.variables.insert(name, number.saturating_add(1))?;
        self.scope.push(InScope { name, symbol })?;
        Ok(symbol)
    }

    /// Adds a variable that no name of the source means, and returns its symbol.
    pub(crate) fn unnamed(&mut self, name: Symbol) -> Result<Symbol, AllocError> {
        let base = name.of_variable(0);
        let number = self.variables.get(&base).copied().unwrap_or(1);
        self.variables.insert(base, number.saturating_add(1))?;
        Ok(base.of_variable(number))
    }

    /// Says that a name means what is declared outside the function.
    pub(crate) fn declare_outside(&mut self, name: Symbol) -> Result<(), AllocError> {
        let next = self.variables.get(&name).copied().unwrap_or(1);
        self.variables.insert(name, next)?;
        self.scope.push(InScope { name, symbol: name })?;
        Ok(())
    }

    /// Returns the symbol of the variable that a name means, or the name's own.
    pub(crate) fn meant(&self, name: Symbol) -> Symbol {
        for known in self.scope.iter().rev() {
            if known.name == name {
                return known.symbol;
            }
        }
        name
    }

    /// Begins a block, and returns where its variables begin.
    pub(crate) fn begin_scope(&mut self) -> usize {
        self.blocks = self.blocks.saturating_add(1);
        self.scope.len()
    }

    /// Ends a block, whose variables begin there.
    pub(crate) fn end_scope(&mut self, start: usize) {
        self.blocks = self.blocks.saturating_sub(1);
        self.scope.truncate(start);
    }

    pub(crate) fn declare_type(&mut self, name: Symbol) -> Result<(), AllocError> {
        self.own_types.insert(name)?;
        Ok(())
    }

    /// Returns whether a declaration or C itself makes the symbol a type.
    pub(crate) fn is_declared_type(&self, symbol: Symbol) -> bool {
        self.types.is_declared(symbol) || self.own_types.contains(&symbol)
    }

    /// Returns whether the lexeme begins a type's name, as far as is known.
    pub(crate) fn is_type(&self, lexeme: &Lexeme) -> bool {
        match lexeme.kind {
            LexemeKind::Keyword(keyword) => keyword.is_qualifier() || keyword.has_tag(),
            LexemeKind::Name => {
                self.is_declared_type(lexeme.symbol)
                    || (names_objects(self.symbols.text(lexeme.symbol))
                        && !self.is_variable(lexeme))
            }
            _ => false,
        }
    }

    pub(crate) fn is_variable(&self, lexeme: &Lexeme) -> bool {
        self.variables.get(&lexeme.symbol).is_some()
    }

    pub(crate) fn expression_at(
        &mut self,
        expression: Expression,
        place: Place,
    ) -> Result<ExpressionId, Stop> {
        Ok(self.tree.add_expression(expression, place)?)
    }

    pub(crate) fn statement_at(
        &mut self,
        statement: Statement,
        place: Place,
    ) -> Result<StatementId, Stop> {
        Ok(self.tree.add_statement(statement, place)?)
    }

    pub(crate) fn block_at(
        &mut self,
        all: &[StatementId],
        place: Place,
    ) -> Result<StatementId, Stop> {
        let list = self.tree.add_body(all)?;
        self.statement_at(Statement::Block(list), place)
    }

    pub(crate) fn list_of(&mut self, all: &[ExpressionId]) -> Result<List, Stop> {
        Ok(self.tree.add_operands(all)?)
    }

    pub(crate) fn instead(&self, expected: Expected) -> Stop {
        self.cursor.instead(expected)
    }

    pub(crate) fn too_deep(&self) -> Stop {
        not_read(self.cursor.peek().place, Reason::TooDeep)
    }
}
