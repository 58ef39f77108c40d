//! Comparisons of two values.

use crate::building::{Branches, Builder};
use crate::operand::Operand;
use crate::stop::Stop;
use brc_c_store::{Comparison, Event, Local, Singleton, Test};
use brc_c_tree::{Binary, ExpressionId};

impl<'a> Builder<'a> {
    /// Asks how two values compare, after which no path is open.
    pub(crate) fn compare(
        &mut self,
        id: ExpressionId,
        operator: Binary,
        left: Operand,
        right: Operand,
        branches: Branches,
    ) -> Result<(), Stop> {
        let comparison = comparison_of(operator);
        match (left, right) {
            (Operand::Object(local), other) | (other, Operand::Object(local)) if other.is_null() =>
                { self.compare_null(id, comparison, local, branches) }
            (Operand::Counted(of), Operand::Null | Operand::Number(_)) => {
                let test = Test {
                    comparison,
                    constant: constant_of(right),
                };
                self.ask_sign(id, of, test, branches)
            }
            (Operand::Null | Operand::Number(_), Operand::Counted(of)) => {
                let test = Test {
                    comparison: comparison.mirrored(),
                    constant: constant_of(left),
                };
                self.ask_sign(id, of, test, branches)
            }
            (Operand::Object(local), Operand::Singleton(singleton))
            | (Operand::Singleton(singleton), Operand::Object(local)) => {
                self.compare_singleton(id, comparison, local, singleton, branches)
            }
            (Operand::Address(_), other) | (other, Operand::Address(_)) if other.is_null() => {
                self.compare_address(id, comparison, branches)
            }
            _ => self.compare_constants(id, comparison, left, right, branches),
        }
    }

    fn compare_null(
        &mut self,
        id: ExpressionId,
        comparison: Comparison,
        local: Local,
        branches: Branches,
    ) -> Result<(), Stop> {
        match comparison {
            Comparison::Equal => self.ask_null(id, local, branches),
            Comparison::NotEqual => self.ask_null(id, local, branches.swapped()),
            _ => self.ask_words(id, None, branches),
        }
    }

    /// A variable has a singleton exactly if the function has assigned it, if it assigns it anywhere. Otherwise it may
    /// be one, but NULL is none.
    fn compare_singleton(
        &mut self,
        id: ExpressionId,
        comparison: Comparison,
        local: Local,
        singleton: Singleton,
        branches: Branches,
    ) -> Result<(), Stop> {
        let branches = match comparison {
            Comparison::Equal => branches,
            Comparison::NotEqual => branches.swapped(),
            _ => return self.ask_words(id, None, branches),
        };
        let words = self.words_of(id)?;
        let place = self.place_of(id);
        if self.is_singled(local, singleton) {
            return self.ask(Event::Is { local, singleton }, place, Some(words), branches);
        }
        let found = self.meeting(place)?;
        self.ask_singleton(
            id,
            comparison,
            Branches {
                holds: found,
                ..branches
            },
        )?;
        self.land(found);
        self.emit(Event::Become { local, singleton }, place, None)?;
        self.jump(branches.holds);
        Ok(())
    }

    /// Asks for a singleton: the words of the condition may be those of the negation.
    fn ask_singleton(
        &mut self,
        id: ExpressionId,
        comparison: Comparison,
        branches: Branches,
    ) -> Result<(), Stop> {
        let fact = self.fact_of(id)?;
        if comparison == Comparison::NotEqual {
            self.ask_words(id, fact, branches.swapped())
        } else {
            self.ask_words(id, fact, branches)
        }
    }

    /// An address isn't NULL.
    fn compare_address(
        &mut self,
        id: ExpressionId,
        comparison: Comparison,
        branches: Branches,
    ) -> Result<(), Stop> {
        match comparison {
            Comparison::Equal => self.jump(branches.fails),
            Comparison::NotEqual => self.jump(branches.holds),
            _ => self.ask_words(id, None, branches)?,
        }
        Ok(())
    }

    /// Compares values that are known before the function runs, or of which nothing is known.
    fn compare_constants(
        &mut self,
        id: ExpressionId,
        comparison: Comparison,
        left: Operand,
        right: Operand,
        branches: Branches,
    ) -> Result<(), Stop> {
        match (number_of(left), number_of(right)) {
            (Some(one), Some(other)) => {
                let holds = compares(comparison, one, other);
                self.jump(if holds {
                    branches.holds
                } else {
                    branches.fails
                });
                Ok(())
            }
            _ => {
                if self.ask_order(id, comparison, branches)? {
                    return Ok(());
                }
                self.ask_freely(id, branches)
            }
        }
    }
}

fn number_of(value: Operand) -> Option<i64> {
    match value {
        Operand::Null => Some(0),
        Operand::Number(number) => Some(number),
        _ => None,
    }
}

fn constant_of(value: Operand) -> i64 {
    match value {
        Operand::Number(number) => number,
        _ => 0,
    }
}

pub(crate) fn compares(comparison: Comparison, left: i64, right: i64) -> bool {
    match comparison {
        Comparison::Equal => left == right,
        Comparison::NotEqual => left != right,
        Comparison::Less => left < right,
        Comparison::LessEqual => left <= right,
        Comparison::Greater => left > right,
        Comparison::GreaterEqual => left >= right,
    }
}

pub(crate) fn comparison_of(operator: Binary) -> Comparison {
    match operator {
        Binary::NotEqual => Comparison::NotEqual,
        Binary::Less => Comparison::Less,
        Binary::LessEqual => Comparison::LessEqual,
        Binary::Greater => Comparison::Greater,
        Binary::GreaterEqual => Comparison::GreaterEqual,
        _ => Comparison::Equal,
    }
}
