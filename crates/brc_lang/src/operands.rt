//! The words after the first one of an instruction.

ghost use Rattle.std.specs.Prelude.{◌≡◌, ◌≤◌, IfOk};
ghost use Rattle.brc_lang.specs.InstructionWords.{words, one_variable_in, two_variables_in, one_target_in, birth_in, taking_in};
ghost use Rattle.brc_lang.specs.InstructionWords.{store_in, open_in, pair_in, as_in, again_in};

use crate::fault::FaultCode;
use crate::kind::Kind;
use crate::lexing::{
    five_words, four_words, index, is_word, kind, mode, number_between, one_word, path, target,
    turns, two_words, variable,
};
use crate::mode::Mode;
use crate::variable::Variable;

/// Reads the operands of `num`, `list` or `connect`: a variable, a number from `low` to `high`, `else` and a target.
pub(crate) fn birth(low: u32, high: u32, operands: &[u8]) -> Result<(Variable, u32, u8), FaultCode>
    ensures read { result ≡ birth_in low high (words operands.now) }
    ensures in_range { IfOk result (λ b. b.1 ≤ high) }
{
    let Some((to, number, word, otherwise)) = four_words(operands) else {
        return Err(FaultCode::UnknownWord);
    };
    if !is_word(word, b"else") {
        return Err(FaultCode::UnknownWord);
    }
    let to = variable(to)?;
    let number = number_between(low, high, number)?;
    let otherwise = target(otherwise)?;
    Ok((to, number, otherwise))
}

/// Reads the operands of `borrow`, `fetch` or `read`: a variable, an object, a number from `low` to `high`, `else` and
/// a target.
pub(crate) fn taking(
    low: u32,
    high: u32,
    operands: &[u8],
) -> Result<(Variable, Variable, u32, u8), FaultCode>
    ensures read { result ≡ taking_in low high (words operands.now) }
    ensures in_range { IfOk result (λ t. t.2 ≤ high) }
{
    let Some((to, object, number, word, otherwise)) = five_words(operands) else {
        return Err(FaultCode::UnknownWord);
    };
    if !is_word(word, b"else") {
        return Err(FaultCode::UnknownWord);
    }
    let to = variable(to)?;
    let object = variable(object)?;
    let number = number_between(low, high, number)?;
    let otherwise = target(otherwise)?;
    Ok((to, object, number, otherwise))
}

/// Reads the operands of `set` or `put`: a list, an index, a variable, `else` and a target.
pub(crate) fn store(operands: &[u8]) -> Result<(Variable, u8, Variable, u8), FaultCode>
    ensures { result ≡ store_in (words operands.now) }
{
    let Some((list, place, from, word, otherwise)) = five_words(operands) else {
        return Err(FaultCode::UnknownWord);
    };
    if !is_word(word, b"else") {
        return Err(FaultCode::UnknownWord);
    }
    let list = variable(list)?;
    let index = index(place)?;
    let from = variable(from)?;
    let otherwise = target(otherwise)?;
    Ok((list, index, from, otherwise))
}

/// Reads the operands of `open`: a variable, a path, a mode, `else` and a target.
pub(crate) fn opening(operands: &[u8]) -> Result<(Variable, u8, Mode, u8), FaultCode>
    ensures { result ≡ open_in (words operands.now) }
{
    let Some((to, place, asked, word, otherwise)) = five_words(operands) else {
        return Err(FaultCode::UnknownWord);
    };
    if !is_word(word, b"else") {
        return Err(FaultCode::UnknownWord);
    }
    let to = variable(to)?;
    let path = path(place)?;
    let mode = mode(asked)?;
    let otherwise = target(otherwise)?;
    Ok((to, path, mode, otherwise))
}

/// Reads the operands of `write`: two variables, `else` and a target.
pub(crate) fn pair(operands: &[u8]) -> Result<(Variable, Variable, u8), FaultCode>
    ensures { result ≡ pair_in (words operands.now) }
{
    let Some((first, second, word, otherwise)) = four_words(operands) else {
        return Err(FaultCode::UnknownWord);
    };
    if !is_word(word, b"else") {
        return Err(FaultCode::UnknownWord);
    }
    let first = variable(first)?;
    let second = variable(second)?;
    let otherwise = target(otherwise)?;
    Ok((first, second, otherwise))
}

/// Reads the operands of `as`: a variable, a kind, `else` and a target.
pub(crate) fn asked_kind(operands: &[u8]) -> Result<(Variable, Kind, u8), FaultCode>
    ensures { result ≡ as_in (words operands.now) }
{
    let Some((from, asked, word, otherwise)) = four_words(operands) else {
        return Err(FaultCode::UnknownWord);
    };
    if !is_word(word, b"else") {
        return Err(FaultCode::UnknownWord);
    }
    let from = variable(from)?;
    let kind = kind(asked)?;
    let otherwise = target(otherwise)?;
    Ok((from, kind, otherwise))
}

/// Reads the only operand, a variable.
pub(crate) fn one_variable(operands: &[u8]) -> Result<Variable, FaultCode>
    ensures { result ≡ one_variable_in (words operands.now) }
{
    match one_word(operands) {
        Some(word) => variable(word),
        None => Err(FaultCode::UnknownWord),
    }
}

/// Reads the two operands, which are variables.
pub(crate) fn two_variables(operands: &[u8]) -> Result<(Variable, Variable), FaultCode>
    ensures { result ≡ two_variables_in (words operands.now) }
{
    let Some((first, second)) = two_words(operands) else {
        return Err(FaultCode::UnknownWord);
    };
    let to = variable(first)?;
    let from = variable(second)?;
    Ok((to, from))
}

/// Reads the only operand, a target.
pub(crate) fn one_target(operands: &[u8]) -> Result<u8, FaultCode>
    ensures { result ≡ one_target_in (words operands.now) }
{
    match one_word(operands) {
        Some(word) => target(word),
        None => Err(FaultCode::UnknownWord),
    }
}

/// Reads the operands of `again`: a target, and how often it goes back there.
pub(crate) fn loop_bounds(operands: &[u8]) -> Result<(u8, u16), FaultCode>
    ensures { result ≡ again_in (words operands.now) }
{
    let Some((first, second)) = two_words(operands) else {
        return Err(FaultCode::UnknownWord);
    };
    let target = target(first)?;
    let times = turns(second)?;
    Ok((target, times))
}
