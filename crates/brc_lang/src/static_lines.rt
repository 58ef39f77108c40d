//! Static lists: their lines, and the instruction that takes one.

ghost use Rattle.std.specs.Prelude.{◌≡◌, ◌⊎◌, OnOk, IfOk, IfErr, Ok, Err};
ghost use Rattle.brc_lang.specs.declared.fault.FaultCode.TheVariants.{NoMemory};
ghost use Rattle.brc_lang.specs.Grammar.{has_statics};
ghost use Rattle.brc_lang.specs.InstructionWords.{words, numbers_in, take_in};
ghost use Rattle.brc_lang.specs.Fault.{is_static, static_in, static_fault_of};
ghost use Rattle.brc_lang.specs.Progress.{IsLineFault, AppendsStatic};

use crate::above::Above;
use crate::fault::FaultCode;
use crate::lexing::{is_word, number, split_word, static_number, two_words, variable, word_count};
use crate::module::Instr;
use crate::sequence::Sequence;
use crate::version::Version;
use std::alloc::Global;

const MOST_STATICS: usize = 16;

/// The most numbers of a static line.
const MOST_NUMBERS: usize = 64;

/// Returns whether the line is a static line: its first word says so, and no function is above it.
pub(crate) fn is_static(above: &Above, text: &[u8]) -> bool
    ensures { result ≡ is_static above.now.version above.now.functions (words text.now) }
{
    let (word, _) = split_word(text);
    is_word(word, b"static") && has_statics(above.version) && above.functions.len() == 0
}

/// Returns whether the version has static lists.
pub(crate) fn has_statics(version: Version) -> bool
    ensures { result ≡ has_statics version }
{
    match version {
        Version::One | Version::Two => false,
        Version::Three => true,
    }
}

/// Reads a static line, and appends its numbers.
///
/// Returns `UnknownWord` for another count of words, then `Number`, then `OverLimit`, or `NoMemory`.
pub(crate) fn read_static(
    alloc: Global,
    statics: &mut Sequence<Sequence<u32>>,
    text: &[u8],
) -> Result<(), FaultCode>
    ensures ok { OnOk result (AppendsStatic statics.old statics.new text.now) }
    ensures err { IfErr result (λ code. IsLineFault (static_fault_of statics.old (static_in (words text.now))) code) }
{
    let numbers = static_numbers(alloc, text)?;
    if statics.len() >= MOST_STATICS {
        return Err(FaultCode::OverLimit);
    }
    statics.push(numbers)?;
    Ok(())
}

/// Reads 1 to 64 numbers behind the first word.
fn static_numbers(alloc: Global, text: &[u8]) -> Result<Sequence<u32>, FaultCode>
    ensures ok { IfOk result (λ numbers. static_in (words text.now) ≡ Ok numbers) }
    ensures err { IfErr result (λ code. (code ≡ NoMemory) ⊎ (static_in (words text.now) ≡ Err code)) }
{
    let (_, rest) = split_word(text);
    let Some(operands) = rest else {
        return Err(FaultCode::UnknownWord);
    };
    if word_count(operands) > MOST_NUMBERS {
        return Err(FaultCode::UnknownWord);
    }
    numbers(alloc, operands)
}

/// Reads a number from each word.
fn numbers(alloc: Global, text: &[u8]) -> Result<Sequence<u32>, FaultCode>
    ensures ok { IfOk result (λ numbers. numbers_in (words text.now) ≡ Ok numbers) }
    ensures err { IfErr result (λ code. (code ≡ NoMemory) ⊎ (numbers_in (words text.now) ≡ Err code)) }
{
    let mut numbers = Sequence::new(alloc);
    let mut rest = Some(text);
    while let Some(text) = rest {
        let (word, after) = split_word(text);
        numbers.push(number(u32::MAX, word)?)?;
        rest = after;
    }
    Ok(numbers)
}

/// Reads the operands of `take`: a variable and the number of a static line.
///
/// Returns the line's first fault. `StaticList`, where there is no such line, comes last.
pub(crate) fn take(above: &Above, operands: &[u8]) -> Result<Instr, FaultCode>
    ensures { result ≡ take_in above.now.statics (words operands.now) }
{
    let Some((first, second)) = two_words(operands) else {
        return Err(FaultCode::UnknownWord);
    };
    let to = variable(first)?;
    let list = static_number(second)?;
    if usize::from(list) >= above.statics.len() {
        return Err(FaultCode::StaticList);
    }
    Ok(Instr::Take { to, list })
}
