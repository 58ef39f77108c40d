//! The line of a call.

ghost use Rattle.std.specs.Prelude.{◌≡◌, ◌≤◌, length, map, position, IfOk, MatchResult, Err};
ghost use Rattle.std.specs.Str.{bytes_eq};
ghost use Rattle.brc_lang.specs.InstructionWords.{words, variables_in, arguments_of, callee_in, call_of, call_in, IsOk};
ghost use Rattle.brc_lang.specs.Limits.{function_limit, parameter_limit};
ghost use Rattle.brc_lang.specs.Progress.{KnowsDepths};

use crate::above::Above;
use crate::arguments::Arguments;
use crate::fault::FaultCode;
use crate::lexing::{
    eight_words, five_words, four_words, is_name, is_word, seven_words, six_words, target, variable,
};
use crate::module::{Function, Instr};
use crate::parameter::{Argument, Parameter};

/// How many calls may be open at once.
const MOST_DEPTH: u8 = 8;

/// Reads the operands of `call`: a variable, a name, 0 to 4 variables, `else` and a target.
///
/// Returns the line's first fault. `Callee` comes after the faults of its words, and `OverLimit` last.
pub(crate) fn call(above: &Above, operands: &[u8]) -> Result<Instr, FaultCode>
    requires known { KnowsDepths above.now }
    requires few { length above.now.functions ≤ function_limit }
    ensures { result ≡ call_in above.now.functions (words operands.now) }
{
    if let Some((to, name, word, otherwise)) = four_words(operands) {
        call_of(above, to, name, &[], word, otherwise)
    } else if let Some((to, name, a, word, otherwise)) = five_words(operands) {
        call_of(above, to, name, &[a], word, otherwise)
    } else if let Some((to, name, a, b, word, otherwise)) = six_words(operands) {
        call_of(above, to, name, &[a, b], word, otherwise)
    } else if let Some((to, name, a, b, c, word, otherwise)) = seven_words(operands) {
        call_of(above, to, name, &[a, b, c], word, otherwise)
    } else if let Some((to, name, a, b, c, d, word, otherwise)) = eight_words(operands) {
        call_of(above, to, name, &[a, b, c, d], word, otherwise)
    } else {
        Err(FaultCode::UnknownWord)
    }
}

/// Reads a call with these variables, of which there are at most four.
fn call_of(
    above: &Above,
    to: &[u8],
    name: &[u8],
    variables: &[&[u8]],
    word: &[u8],
    otherwise: &[u8],
) -> Result<Instr, FaultCode>
    requires known { KnowsDepths above.now }
    requires few { length above.now.functions ≤ function_limit }
    requires short { length variables.now ≤ parameter_limit }
    ensures { result ≡ call_of above.now.functions to.now name.now (map (λ w. w.now) variables.now) word.now
        otherwise.now }
{
    if !is_word(word, b"else") {
        return Err(FaultCode::UnknownWord);
    }
    let to = variable(to)?;
    if !is_name(name) {
        return Err(FaultCode::UnknownWord);
    }
    are_variables(variables)?;
    let otherwise = target(otherwise)?;
    let (callee, arguments) = callee(above, name, variables)?;
    Ok(Instr::Call {
        to,
        callee,
        arguments,
        otherwise,
    })
}

/// Returns the fault of the first word that isn't a variable.
fn are_variables(words: &[&[u8]]) -> Result<(), FaultCode>
    ensures { MatchResult result (λ _. IsOk (variables_in (map (λ w. w.now) words.now)))
        (λ code. variables_in (map (λ w. w.now) words.now) ≡ Err code) }
{
    for word in words {
        variable(word)?;
    }
    Ok(())
}

/// Returns the number of the function of this name, and its arguments, which are variables.
fn callee(above: &Above, name: &[u8], words: &[&[u8]]) -> Result<(u8, Arguments), FaultCode>
    requires known { KnowsDepths above.now }
    requires few { length above.now.functions ≤ function_limit }
    requires short { length words.now ≤ parameter_limit }
    requires variables { IsOk (variables_in (map (λ w. w.now) words.now)) }
    ensures { IfOk (variables_in (map (λ w. w.now) words.now)) (λ variables.
        result ≡ callee_in above.now.functions name.now variables) }
{
    let Some(number) = number_of(above.functions.as_slice(), name) else {
        return Err(FaultCode::Callee);
    };
    let parameters = above.functions.as_slice()[number].parameters.as_slice();
    if parameters.len() != words.len() {
        return Err(FaultCode::Callee);
    }
    if above.depths[number] >= MOST_DEPTH {
        return Err(FaultCode::OverLimit);
    }
    Ok((number as u8, arguments(parameters, words)))
}

/// Returns the number of the function of this name, or `None`.
fn number_of(functions: &[Function], name: &[u8]) -> Option<usize>
    ensures { result ≡ position (λ f. bytes_eq f.name name.now) functions.now }
{
    functions
        .iter()
        .position(|function| is_word(function.name.as_bytes(), name))
}

/// Returns the variables, each with its parameter.
fn arguments(parameters: &[Parameter], words: &[&[u8]]) -> Arguments
    requires short { length words.now ≤ parameter_limit }
    requires same { length parameters.now ≡ length words.now }
    requires variables { IsOk (variables_in (map (λ w. w.now) words.now)) }
    ensures { IfOk (variables_in (map (λ w. w.now) words.now)) (λ variables.
        result ≡ arguments_of parameters.now variables) }
{
    let mut arguments = Arguments::new();
    for (number, word) in words.iter().enumerate() {
        if let Ok(from) = variable(word) {
            arguments.push(Argument {
                from,
                parameter: parameters[number],
            });
        }
    }
    arguments
}
