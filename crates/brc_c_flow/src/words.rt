//! Expressions in words, as the source has them.

use crate::building::Builder;
use crate::stop::Stop;
use brc_c_graph::Words;
use brc_c_text::Symbol;
use brc_c_tree::{Binary, Expression, ExpressionId, List, Tag, TypeName, Unary};
use std::alloc::AllocError;

/// How deep an expression is put into words.
const WORDS_DEPTH: usize = 64;

/// How many operands an expression's first lexeme may be inside of.
const LEFT_LIMIT: usize = 1024;

impl<'a> Builder<'a> {
    /// Returns the words of an expression.
    pub(crate) fn words_of(&mut self, id: ExpressionId) -> Result<Words, Stop> {
        let text = self.written(id)?;
        Ok(self.graph.add_words(text)?)
    }

    /// Returns an expression's text as the source has it.
    pub(crate) fn written(&mut self, id: ExpressionId) -> Result<String, AllocError> {
        self.is_exact = false;
        let text = self.text_of(id);
        self.is_exact = true;
        text
    }

    /// Returns the words of a name.
    pub(crate) fn words_of_symbol(&mut self, symbol: Symbol) -> Result<Words, Stop> {
        let text = String::from_utf8_lossy(self.alloc, self.symbols.text(symbol))?;
        Ok(self.graph.add_words(text)?)
    }

    /// Returns an expression's text. It differs where another variable of the same name is meant.
    pub(crate) fn text_of(&self, id: ExpressionId) -> Result<String, AllocError> {
        let mut text = String::new(self.alloc);
        self.spell(&mut text, id, WORDS_DEPTH)?;
        Ok(text)
    }

    fn spell_symbol(&self, text: &mut String, symbol: Symbol) -> Result<(), AllocError> {
        let spelled = String::from_utf8_lossy(self.alloc, self.symbols.text(symbol))?;
        text.push_str(spelled.as_str())
    }

    /// Puts a name into words. A variable that isn't the first one of its name has its number behind it.
    fn spell_name(&self, text: &mut String, symbol: Symbol) -> Result<(), AllocError> {
        self.spell_symbol(text, symbol)?;
        let number = symbol.variable();
        if !self.is_exact || number == 0 {
            return Ok(());
        }
        let mark = format!(in self.alloc; "'{number}")?;
        text.push_str(mark.as_str())
    }

    #[cycle(spelling)]
    fn spell(&self, text: &mut String, id: ExpressionId, depth: usize) -> Result<(), AllocError> {
        let (Some(inside), Some(expression)) = (depth.checked_sub(1), self.tree.expression(id))
        else {
            return text.push_str("..");
        };
        match expression {
            Expression::Name(symbol) => self.spell_name(text, symbol),
            Expression::Number(symbol) | Expression::Character(symbol) | Expression::Text(symbol) =>
                self.spell_symbol(text, symbol),
            Expression::Unary { operator, operand } => {
                text.push_str(unary_text(operator))?;
                self.spell_operand(text, operand, UNARY, inside)
            }
            Expression::Step {
                is_up,
                is_before,
                operand,
            } => {
                let sign = if is_up { "++" } else { "--" };
                text.push_str(if is_before { sign } else { "" })?;
                self.spell_operand(text, operand, UNARY, inside)?;
                text.push_str(if is_before { "" } else { sign })
            }
            Expression::Cast { to, operand } => {
                self.spell_type(text, to)?;
                self.spell_operand(text, operand, UNARY, inside)
            }
            Expression::SizeOf => text.push_str("sizeof(..)"),
            Expression::Opaque => text.push_str(".."),
            _ => self.spell_parts(text, expression, inside),
        }
    }

    /// Puts an expression into words that has several parts.
    #[cycle(spelling)]
    fn spell_parts(
        &self,
        text: &mut String,
        expression: Expression,
        depth: usize,
    ) -> Result<(), AllocError> {
        match expression {
            Expression::Binary {
                operator,
                left,
                right,
            } => {
                let level = level_of(operator);
                self.spell_operand(text, left, level, depth)?;
                text.push(' ')?;
                text.push_str(binary_text(operator))?;
                text.push(' ')?;
                self.spell_operand(text, right, level.saturating_add(1), depth)
            }
            Expression::Assign {
                left,
                right,
                operator,
            } => {
                self.spell_operand(text, left, UNARY, depth)?;
                text.push(' ')?;
                if let Some(operator) = operator {
                    text.push_str(binary_text(operator))?;
                }
                text.push_str("= ")?;
                self.spell_operand(text, right, ASSIGNMENT, depth)
            }
            Expression::Conditional {
                condition,
                then,
                otherwise,
            } => {
                self.spell_operand(text, condition, LOWEST, depth)?;
                text.push_str(" ? ")?;
                self.spell_operand(text, then, LOWEST, depth)?;
                text.push_str(" : ")?;
                self.spell_operand(text, otherwise, CONDITIONAL, depth)
            }
            Expression::Comma { left, right } => {
                self.spell_operand(text, left, ASSIGNMENT, depth)?;
                text.push_str(", ")?;
                self.spell_operand(text, right, ASSIGNMENT, depth)
            }
            _ => self.spell_postfix(text, expression, depth),
        }
    }

    /// Puts a call, an element, a field or values in braces into words.
    #[cycle(spelling)]
    fn spell_postfix(
        &self,
        text: &mut String,
        expression: Expression,
        depth: usize,
    ) -> Result<(), AllocError> {
        match expression {
            Expression::Call {
                function,
                arguments,
            } => {
                self.spell_operand(text, function, UNARY, depth)?;
                text.push('(')?;
                self.spell_list(text, arguments, depth)?;
                text.push(')')
            }
            Expression::Index { array, index } => {
                self.spell_operand(text, array, UNARY, depth)?;
                text.push('[')?;
                self.spell(text, index, depth)?;
                text.push(']')
            }
            Expression::Field {
                object,
                name,
                is_arrow,
            } => {
                self.spell_operand(text, object, UNARY, depth)?;
                text.push_str(if is_arrow { "->" } else { "." })?;
                self.spell_symbol(text, name)
            }
            Expression::Values(list) => {
                text.push('{')?;
                self.spell_list(text, list, depth)?;
                text.push('}')
            }
            _ => Ok(()),
        }
    }

    #[cycle(spelling)]
    fn spell_list(&self, text: &mut String, list: List, depth: usize) -> Result<(), AllocError> {
        for (at, operand) in self.tree.operands(list).iter().enumerate() {
            if at > 0 {
                text.push_str(", ")?;
            }
            self.spell(text, *operand, depth)?;
        }
        Ok(())
    }

    /// Puts an operand into words, in parentheses if it doesn't bind as tightly as this.
    #[cycle(spelling)]
    fn spell_operand(
        &self,
        text: &mut String,
        id: ExpressionId,
        least: u8,
        depth: usize,
    ) -> Result<(), AllocError> {
        if self.binding(id) >= least {
            return self.spell(text, id, depth);
        }
        text.push('(')?;
        self.spell(text, id, depth)?;
        text.push(')')
    }

    /// Returns how tightly an expression binds.
    fn binding(&self, id: ExpressionId) -> u8 {
        match self.tree.expression(id) {
            Some(Expression::Binary { operator, .. }) => level_of(operator),
            Some(Expression::Comma { .. }) => LOWEST,
            Some(Expression::Assign { .. }) => ASSIGNMENT,
            Some(Expression::Conditional { .. }) => CONDITIONAL,
            _ => UNARY,
        }
    }

    fn spell_type(&self, text: &mut String, to: TypeName) -> Result<(), AllocError> {
        text.push_str(match to.tag {
            Some(Tag::Struct) => "(struct ",
            Some(Tag::Union) => "(union ",
            Some(Tag::Enum) => "(enum ",
            None => "(",
        })?;
        self.spell_symbol(text, to.symbol)?;
        for star in 0..to.stars {
            text.push_str(if star == 0 { " *" } else { "*" })?;
        }
        text.push(')')
    }

    /// Returns the part of an expression that has its first lexeme.
    pub(crate) fn leftmost(&self, id: ExpressionId) -> ExpressionId {
        let mut found = id;
        for _turn in 0..LEFT_LIMIT {
            found = match self.tree.expression(found) {
                Some(
                    Expression::Binary { left, .. }
                    | Expression::Assign { left, .. }
                    | Expression::Comma { left, .. },
                ) => left,
                Some(Expression::Conditional { condition, .. }) => condition,
                Some(Expression::Call { function, .. }) => function,
                Some(Expression::Index { array, .. }) => array,
                Some(Expression::Field { object, .. }) => object,
                Some(
                    Expression::Step {
                        is_before: false,
                        operand,
                        ..
                    },
                ) => operand,
                _ => break,
            };
        }
        found
    }
}

const LOWEST: u8 = 0;

const ASSIGNMENT: u8 = 1;

const CONDITIONAL: u8 = 2;

const UNARY: u8 = 13;

fn level_of(operator: Binary) -> u8 {
    match operator {
        Binary::Or => 3,
        Binary::And => 4,
        Binary::BitOr => 5,
        Binary::BitXor => 6,
        Binary::BitAnd => 7,
        Binary::Equal | Binary::NotEqual => 8,
        Binary::Less | Binary::LessEqual | Binary::Greater | Binary::GreaterEqual => 9,
        Binary::ShiftLeft | Binary::ShiftRight => 10,
        Binary::Add | Binary::Subtract => 11,
        Binary::Multiply | Binary::Divide | Binary::Remainder => 12,
    }
}

fn binary_text(operator: Binary) -> &'static str {
    match operator {
        Binary::Or => "||",
        Binary::And => "&&",
        Binary::BitOr => "|",
        Binary::BitXor => "^",
        Binary::BitAnd => "&",
        Binary::Equal => "==",
        Binary::NotEqual => "!=",
        Binary::Less => "<",
        Binary::LessEqual => "<=",
        Binary::Greater => ">",
        Binary::GreaterEqual => ">=",
        Binary::ShiftLeft => "<<",
        Binary::ShiftRight => ">>",
        Binary::Add => "+",
        Binary::Subtract => "-",
        Binary::Multiply => "*",
        Binary::Divide => "/",
        Binary::Remainder => "%",
    }
}

fn unary_text(operator: Unary) -> &'static str {
    match operator {
        Unary::Not => "!",
        Unary::Plus => "+",
        Unary::Minus => "-",
        Unary::Complement => "~",
        Unary::Dereference => "*",
        Unary::Address => "&",
    }
}
