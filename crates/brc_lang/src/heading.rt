//! The lines that open a text and a function.

ghost use Rattle.std.specs.Prelude.{◌≡◌, ◌≤◌, ◌⊎◌, length, IfOk, IfErr, Ok, Err};
ghost use Rattle.std.specs.List.{list_any};
ghost use Rattle.std.specs.Str.{bytes_eq};
ghost use Rattle.brc_lang.specs.declared.fault.FaultCode.TheVariants.{NoMemory};
ghost use Rattle.brc_lang.specs.InstructionWords.{words, passing_in, parameter_kind_in};
ghost use Rattle.brc_lang.specs.Fault.{parameters_within, heading_in};
ghost use Rattle.brc_lang.specs.Fault.{heading_fault_of, version_in};
ghost use Rattle.brc_lang.specs.Grammar.{most_parameters};
ghost use Rattle.brc_lang.specs.Limits.{name_limit, parameter_limit};
ghost use Rattle.brc_lang.specs.Progress.{IsLineFault, Opens};

use crate::above::Above;
use crate::fault::FaultCode;
use crate::kind::Kind;
use crate::lexing::{is_name, is_word, kind, split_word};
use crate::module::Function;
use crate::name::Name;
use crate::parameter::{Parameter, Passing};
use crate::sequence::Sequence;
use crate::version::Version;
use std::alloc::Global;

const FIRST_LINE_OF_ONE: &[u8] = b"module 1\n";

const FIRST_LINE_OF_TWO: &[u8] = b"module 2\n";

const FIRST_LINE_OF_THREE: &[u8] = b"module 3\n";

const MOST_FUNCTIONS: usize = 64;

const MOST_PARAMETERS: usize = 4;

/// Returns the version that the first line of a text names, or `None`.
pub(crate) fn version(bytes: &[u8]) -> Option<Version>
    ensures { result ≡ version_in bytes.now }
{
    if bytes.starts_with(FIRST_LINE_OF_ONE) {
        Some(Version::One)
    } else if bytes.starts_with(FIRST_LINE_OF_TWO) {
        Some(Version::Two)
    } else if bytes.starts_with(FIRST_LINE_OF_THREE) {
        Some(Version::Three)
    } else {
        None
    }
}

/// Reads the line that opens a function: its name and its parameters.
///
/// Returns `UnknownWord`, then `OverLimit`, then `NameTwice`, or `NoMemory`.
pub(crate) fn heading(
    alloc: Global,
    above: &Above,
    text: &[u8],
) -> Result<(Name, Sequence<Parameter>), FaultCode>
    ensures ok { IfOk result (λ h. Opens above.now.version above.now.functions text.now h.0 h.1) }
    ensures err { IfErr result (λ code.
        IsLineFault (heading_fault_of above.now.version above.now.functions (words text.now)) code) }
{
    let (name, parameters) = name_and_parameters(alloc, above.version, text)?;
    if above.functions.len() >= MOST_FUNCTIONS {
        return Err(FaultCode::OverLimit);
    }
    if has_name(above.functions.as_slice(), name) {
        return Err(FaultCode::NameTwice);
    }
    Ok((Name::new(name), parameters))
}

/// Reads the name and the parameters in the line that opens a function. Returns `UnknownWord` or `NoMemory`.
fn name_and_parameters<'a>(
    alloc: Global,
    version: Version,
    text: &'a [u8],
) -> Result<(&'a [u8], Sequence<Parameter>), FaultCode>
    ensures ok { IfOk result (λ h. heading_in version (words text.now) ≡ Ok (h.0.now, h.1)) }
    ensures short { IfOk result (λ h. length h.0.now ≤ name_limit) }
    ensures err { IfErr result (λ code. (code ≡ NoMemory) ⊎ (heading_in version (words text.now) ≡ Err code)) }
{
    let (word, rest) = split_word(text);
    if !is_word(word, b"func") {
        return Err(FaultCode::UnknownWord);
    }
    let Some(rest) = rest else {
        return Err(FaultCode::UnknownWord);
    };
    let (name, rest) = split_word(rest);
    if !is_name(name) {
        return Err(FaultCode::UnknownWord);
    }
    match rest {
        Some(rest) => Ok((name, parameters(alloc, most_parameters(version), rest)?)),
        None => Ok((name, Sequence::new(alloc))),
    }
}

fn most_parameters(version: Version) -> usize
    ensures { result ≡ most_parameters version }
{
    match version {
        Version::One => 0,
        Version::Two | Version::Three => MOST_PARAMETERS,
    }
}

/// Reads a passing and a kind for each of one or more parameters, of which there are at most `most`.
fn parameters(alloc: Global, most: usize, text: &[u8]) -> Result<Sequence<Parameter>, FaultCode>
    requires { most ≤ parameter_limit }
    ensures ok { IfOk result (λ parameters. parameters_within most (words text.now) ≡ Ok parameters) }
    ensures err { IfErr result (λ code. (code ≡ NoMemory) ⊎ (parameters_within most (words text.now) ≡ Err code)) }
{
    let mut parameters = Sequence::new(alloc);
    let mut rest = Some(text);
    while let Some(text) = rest {
        if parameters.len() >= most {
            return Err(FaultCode::UnknownWord);
        }
        let (word, after) = split_word(text);
        let passing = passing(word)?;
        let Some(after) = after else {
            return Err(FaultCode::UnknownWord);
        };
        let (word, after) = split_word(after);
        let kind = parameter_kind(word)?;
        parameters.push(Parameter { passing, kind })?;
        rest = after;
    }
    Ok(parameters)
}

/// Reads a passing: `borrow` or `steal`. Returns `UnknownWord` for another word.
fn passing(word: &[u8]) -> Result<Passing, FaultCode>
    ensures { result ≡ passing_in word.now }
{
    if is_word(word, b"borrow") {
        Ok(Passing::Borrow)
    } else if is_word(word, b"steal") {
        Ok(Passing::Steal)
    } else {
        Err(FaultCode::UnknownWord)
    }
}

/// Reads the kind of a parameter, which may be `any`. Returns `UnknownWord` for another word.
fn parameter_kind(word: &[u8]) -> Result<Kind, FaultCode>
    ensures { result ≡ parameter_kind_in word.now }
{
    if is_word(word, b"any") {
        Ok(Kind::Any)
    } else {
        kind(word)
    }
}

fn has_name(functions: &[Function], name: &[u8]) -> bool
    ensures { result ≡ list_any (λ f. bytes_eq f.name name.now) functions.now }
{
    functions
        .iter()
        .any(|function| is_word(function.name.as_bytes(), name))
}
