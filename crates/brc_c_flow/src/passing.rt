//! How each argument of a call is passed.

use crate::building::Builder;
use crate::formats::{Item, build_item, parse_item};
use crate::operand::Want;
use crate::own::OwnOut;
use crate::stop::Stop;
use brc_c_table::{Row, Takes};
use brc_c_tree::{Expression, ExpressionId, Unary};

/// How an argument is passed.
#[derive(Clone, Copy)]
pub(crate) enum Passing {
    /// As the table says.
    Table(Takes),
    /// Where an object is stored that the first argument lends. What is there may be left as it is.
    Lent { is_optional: bool },
    /// The same, by a function of which nothing is known.
    Converted,
    /// Where a function of the program stores objects.
    Own(OwnOut),
    /// The first argument has the reference if the call succeeds. If it fails, it is given up.
    GivenOrLost,
}

/// Returns how an argument is passed. Of those that nothing is said of there is nothing to say.
pub(crate) fn passed(how: &[Passing], at: usize) -> Passing {
    match how.get(at) {
        Some(found) => *found,
        None => Passing::Table(Takes::NoObject),
    }
}

/// Returns how the table says that an argument is passed, without what formats say.
pub(crate) fn letter(takes: &[Takes], at: usize) -> Takes {
    match (takes.get(at), takes.last()) {
        (Some(found), _) => *found,
        (None, Some(Takes::RestBorrowed)) => Takes::RestBorrowed,
        _ => Takes::NoObject,
    }
}

/// Returns what an argument is for.
pub(crate) fn argument_want(passing: Passing) -> Want {
    let Passing::Table(takes) = passing else {
        return Want::NOTHING;
    };
    match takes {
        Takes::Borrowed | Takes::Kept => Want::OBJECT,
        _ if is_object(takes) => Want::ASKED_OBJECT,
        Takes::RestFormatted => Want::ASKED,
        _ => Want::NOTHING,
    }
}

/// Returns whether an argument is an object.
pub(crate) fn is_object(takes: Takes) -> bool {
    may_be_null(takes)
        || matches!(
            takes,
            Takes::Borrowed
                | Takes::Kept
                | Takes::Stolen
                | Takes::StolenOnSuccess
                | Takes::StolenOnFailure
                | Takes::StolenAndKept
        )
}

/// Returns whether NULL may be passed, too.
pub(crate) fn may_be_null(takes: Takes) -> bool {
    matches!(
        takes,
        Takes::BorrowedOrNull
            | Takes::KeptOnSuccess
            | Takes::BorrowedOrFails
            | Takes::StolenOrFails
            | Takes::RestBorrowed
    )
}

impl<'a> Builder<'a> {
    /// Returns how the arguments of a call are passed, one after another. Of a function that the table doesn't have
    /// nothing is said.
    pub(crate) fn passings(
        &mut self,
        function: ExpressionId,
        ids: &[ExpressionId],
    ) -> Result<Vec<Passing>, Stop> {
        let mut how = Vec::new(self.alloc);
        let Some(callee) = self.callee_of(function) else {
            return Ok(how);
        };
        self.find_passings(callee.row, function, ids, &mut how)?;
        if let Some(own) = callee.own {
            for out in own.outs.iter() {
                if let Some(found) = how.get_mut(out.argument) {
                    *found = Passing::Own(*out);
                }
            }
        }
        // Another version of the function is called: nothing is known of it.
        if how.len() != ids.len() {
            how.clear();
        }
        Ok(how)
    }

    /// Returns how arguments are passed to a call of whose failure the function asks: what is stolen by a failure isn't
    /// the container's.
    pub(crate) fn exact_passings(&self, how: &[Passing]) -> Result<Vec<Passing>, Stop> {
        let mut exact = Vec::new(self.alloc);
        for passing in how {
            exact.push(match *passing {
                Passing::Table(Takes::StolenAndKept) => Passing::GivenOrLost,
                other => other,
            })?;
        }
        Ok(exact)
    }

    fn find_passings(
        &mut self,
        row: &Row,
        function: ExpressionId,
        ids: &[ExpressionId],
        how: &mut Vec<Passing>,
    ) -> Result<(), Stop> {
        for (at, takes) in row.takes.as_slice().iter().enumerate() {
            match *takes {
                Takes::ParseFormat | Takes::BuildFormat => {
                    how.push(Passing::Table(Takes::NoObject))?;
                    if row.takes.as_slice().len() > at.saturating_add(1) {
                        // The names of `PyArg_ParseTupleAndKeywords`.
                        how.push(Passing::Table(Takes::NoObject))?;
                    }
                    return self.formatted(*takes, function, ids, at, how);
                }
                Takes::RestOut => {
                    let sure = match ids.get(2) {
                        Some(least) => self.constant_in(*least).unwrap_or(0),
                        None => 0,
                    };
                    for (number, _) in ids.get(at..).unwrap_or(&[]).iter().enumerate() {
                        let is_optional = i64::try_from(number).unwrap_or(i64::MAX) >= sure;
                        how.push(Passing::Lent { is_optional })?;
                    }
                }
                Takes::RestBorrowed | Takes::RestNoObjects | Takes::RestFormatted => {
                    for _ in ids.get(at..).unwrap_or(&[]) {
                        how.push(Passing::Table(*takes))?;
                    }
                }
                _ => how.push(Passing::Table(*takes))?,
            }
        }
        Ok(())
    }

    /// Adds how the arguments are passed that a format speaks of.
    fn formatted(
        &mut self,
        takes: Takes,
        function: ExpressionId,
        ids: &[ExpressionId],
        at: usize,
        how: &mut Vec<Passing>,
    ) -> Result<(), Stop> {
        let Some(format) = ids.get(at) else {
            return Ok(());
        };
        let Some(text) = self.format_text(*format) else {
            return self.unknown_format(takes, function, ids, how);
        };
        let mut rest = text;
        let mut is_optional = false;
        for _item in 0..text.len() {
            let found = if takes == Takes::ParseFormat {
                parse_item(rest, is_optional)
            } else {
                build_item(rest)
            };
            let Some(item) = found else {
                return self.unknown_format(takes, function, ids, how);
            };
            is_optional = is_optional || item.begins_optional;
            for _ in 0..item.plain {
                how.push(Passing::Table(Takes::NoObject))?;
            }
            self.add_item(item, ids, how)?;
            rest = rest.get(item.length..).unwrap_or(&[]);
            if rest.is_empty() {
                break;
            }
        }
        Ok(())
    }

    /// Adds how the other arguments of a format are passed that isn't known: what is stored is lent, as far as is
    /// known. Of what is built nothing is known.
    fn unknown_format(
        &mut self,
        takes: Takes,
        function: ExpressionId,
        ids: &[ExpressionId],
        how: &mut Vec<Passing>,
    ) -> Result<(), Stop> {
        if takes != Takes::ParseFormat {
            how.clear();
            return Ok(());
        }
        let words = self.words_of(function)?;
        self.assume(words)?;
        for place in ids.get(how.len()..).unwrap_or(&[]) {
            how.push(if self.is_address_of_object(*place) {
                Passing::Converted
            } else {
                Passing::Table(Takes::NoObject)
            })?;
        }
        Ok(())
    }

    fn add_item(
        &mut self,
        item: Item,
        ids: &[ExpressionId],
        how: &mut Vec<Passing>,
    ) -> Result<(), Stop> {
        let Some(passing) = item.object else {
            return Ok(());
        };
        let Passing::Converted = passing else {
            how.push(passing)?;
            return Ok(());
        };
        // No object is stored where there is none.
        let is_object = match ids.get(how.len()) {
            Some(place) => self.is_address_of_object(*place),
            None => false,
        };
        let found = if is_object {
            let converter = ids.get(how.len().saturating_sub(1)).copied();
            self.converted(converter)?
        } else {
            Passing::Table(Takes::NoObject)
        };
        how.push(found)?;
        Ok(())
    }

    fn is_address_of_object(&self, id: ExpressionId) -> bool {
        match self.tree.expression(self.without_casts(id)) {
            Some(
                Expression::Unary {
                    operator: Unary::Address,
                    operand,
                },
            ) => self.is_object(operand),
            _ => false,
        }
    }

    /// Returns how an argument is passed that a converter sets.
    fn converted(&mut self, converter: Option<ExpressionId>) -> Result<Passing, Stop> {
        let Some(converter) = converter else {
            return Ok(Passing::Converted);
        };
        if self.is_new_converter(converter) {
            return Ok(Passing::Table(Takes::Out));
        }
        let words = self.words_of(converter)?;
        self.assume(words)?;
        Ok(Passing::Converted)
    }

    /// Returns whether a converter stores a new reference.
    fn is_new_converter(&self, id: ExpressionId) -> bool {
        match self.name_in(id) {
            Some(name) => matches!(
                self.symbols.text(name),
                b"PyUnicode_FSConverter" | b"PyUnicode_FSDecoder"
            ),
            None => false,
        }
    }
}
