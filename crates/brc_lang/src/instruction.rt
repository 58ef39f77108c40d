//! The instruction of a line.

ghost use Rattle.std.specs.Prelude.{◌≡◌, ◌≤◌, ℕ, List, ◌∷◌, [], length};
ghost use Rattle.brc_lang.specs.declared.module.Function.{Function};
ghost use Rattle.brc_lang.specs.declared.version.Version.{Version};
ghost use Rattle.brc_lang.specs.InstructionWords.{words, instruction_in, plain_instruction_in, item_instruction_in};
ghost use Rattle.brc_lang.specs.InstructionWords.{host_instruction_in, path_instruction_in};
ghost use Rattle.brc_lang.specs.Grammar.{has_calls};
ghost use Rattle.brc_lang.specs.Limits.{function_limit};
ghost use Rattle.brc_lang.specs.Progress.{KnowsDepths};

use crate::above::Above;
use crate::calling::call;
use crate::fault::FaultCode;
use crate::lexing::{is_word, split_word};
use crate::module::Instr;
use crate::operands::{
    asked_kind, birth, loop_bounds, one_target, one_variable, opening, pair, store, taking,
    two_variables,
};
use crate::static_lines::{has_statics, take};
use crate::version::Version;

/// The greatest index of an item.
const LAST_INDEX: u32 = 255;

const LAST_PEER: u32 = 15;

/// The most bytes of one `read`.
const MOST_BYTES: u32 = 4096;

/// Reads the instruction of a line.
///
/// Returns the line's first fault: the first word, the number of words and `else` come first (`UnknownWord`), then the
/// operands from left to right, and at last whether a call is of a function above, and a `take` of a static list.
pub(crate) fn instruction(above: &Above, line: &[u8]) -> Result<Instr, FaultCode>
    requires known { KnowsDepths above.now }
    requires few { length above.now.functions ≤ function_limit }
    ensures { result ≡ instruction_in above.now.version above.now.statics above.now.functions (words line.now) }
{
    let (word, operands) = split_word(line);
    match operands {
        Some(operands) => instruction_with(above, word, operands),
        None => lone_word(word),
    }
}

/// Reads the instruction of this name with the words after it.
fn instruction_with(above: &Above, word: &[u8], operands: &[u8]) -> Result<Instr, FaultCode>
    requires known { KnowsDepths above.now }
    requires few { length above.now.functions ≤ function_limit }
    ensures { result ≡ instruction_in above.now.version above.now.statics above.now.functions
        (word.now ∷ words operands.now) }
{
    if is_word(word, b"call") && has_calls(above.version) {
        call(above, operands)
    } else if is_word(word, b"take") && has_statics(above.version) {
        take(above, operands)
    } else {
        plain_instruction(above.version, word, operands)
    }
}

fn has_calls(version: Version) -> bool
    ensures { result ≡ has_calls version }
{
    match version {
        Version::One => false,
        Version::Two | Version::Three => true,
    }
}

/// Reads an instruction without operands.
fn lone_word(word: &[u8]) -> Result<Instr, FaultCode>
    ensures { (version : Version) (statics : List (List ℕ)) (above : List Function)
        → result ≡ instruction_in version statics above (word.now ∷ []) }
{
    if is_word(word, b"fail") {
        Ok(Instr::Fail)
    } else {
        Err(FaultCode::UnknownWord)
    }
}

/// Reads an instruction that calls no function and takes no static list.
fn plain_instruction(version: Version, word: &[u8], operands: &[u8]) -> Result<Instr, FaultCode>
    ensures { result ≡ plain_instruction_in version (word.now ∷ words operands.now) }
{
    if is_word(word, b"num") {
        let (to, value, otherwise) = birth(0, u32::MAX, operands)?;
        Ok(Instr::Num {
            to,
            value,
            otherwise,
        })
    } else if is_word(word, b"list") {
        let (to, cells, otherwise) = birth(1, u32::from(version.most_cells()), operands)?;
        Ok(Instr::List {
            to,
            cells: cells as u8,
            otherwise,
        })
    } else if is_word(word, b"none") {
        let to = one_variable(operands)?;
        Ok(Instr::NoneObject { to })
    } else if is_word(word, b"newref") {
        let (to, from) = two_variables(operands)?;
        Ok(Instr::Newref { to, from })
    } else if is_word(word, b"move") {
        let (to, from) = two_variables(operands)?;
        Ok(Instr::Move { to, from })
    } else if is_word(word, b"drop") {
        let from = one_variable(operands)?;
        Ok(Instr::Drop { from })
    } else if is_word(word, b"lock") {
        let object = one_variable(operands)?;
        Ok(Instr::Lock { object })
    } else if is_word(word, b"unlock") {
        let object = one_variable(operands)?;
        Ok(Instr::Unlock { object })
    } else {
        item_instruction(word, operands)
    }
}

/// Reads an instruction that reads or stores an item of a list, or one of `host_instruction`.
fn item_instruction(word: &[u8], operands: &[u8]) -> Result<Instr, FaultCode>
    ensures { result ≡ item_instruction_in word.now (words operands.now) }
{
    if is_word(word, b"borrow") {
        let (to, list, index, otherwise) = taking(0, LAST_INDEX, operands)?;
        Ok(Instr::Borrow {
            to,
            list,
            index: index as u8,
            otherwise,
        })
    } else if is_word(word, b"fetch") {
        let (to, list, index, otherwise) = taking(0, LAST_INDEX, operands)?;
        Ok(Instr::Fetch {
            to,
            list,
            index: index as u8,
            otherwise,
        })
    } else if is_word(word, b"set") {
        let (list, index, from, otherwise) = store(operands)?;
        Ok(Instr::Set {
            list,
            index,
            from,
            otherwise,
        })
    } else if is_word(word, b"put") {
        let (list, index, from, otherwise) = store(operands)?;
        Ok(Instr::Put {
            list,
            index,
            from,
            otherwise,
        })
    } else {
        host_instruction(word, operands)
    }
}

/// Reads an instruction that asks the host, or one of `path_instruction`.
fn host_instruction(word: &[u8], operands: &[u8]) -> Result<Instr, FaultCode>
    ensures { result ≡ host_instruction_in word.now (words operands.now) }
{
    if is_word(word, b"open") {
        let (to, path, mode, otherwise) = opening(operands)?;
        Ok(Instr::Open {
            to,
            path,
            mode,
            otherwise,
        })
    } else if is_word(word, b"connect") {
        let (to, peer, otherwise) = birth(0, LAST_PEER, operands)?;
        Ok(Instr::Connect {
            to,
            peer: peer as u8,
            otherwise,
        })
    } else if is_word(word, b"read") {
        let (to, file, most, otherwise) = taking(1, MOST_BYTES, operands)?;
        Ok(Instr::Read {
            to,
            file,
            most: most as u16,
            otherwise,
        })
    } else if is_word(word, b"write") {
        let (file, number, otherwise) = pair(operands)?;
        Ok(Instr::Write {
            file,
            number,
            otherwise,
        })
    } else {
        path_instruction(word, operands)
    }
}

/// Reads an instruction that says where the call goes on, or what it returns.
fn path_instruction(word: &[u8], operands: &[u8]) -> Result<Instr, FaultCode>
    ensures { result ≡ path_instruction_in word.now (words operands.now) }
{
    if is_word(word, b"as") {
        let (from, kind, otherwise) = asked_kind(operands)?;
        Ok(Instr::As {
            from,
            kind,
            otherwise,
        })
    } else if is_word(word, b"goto") {
        let target = one_target(operands)?;
        Ok(Instr::Goto { target })
    } else if is_word(word, b"again") {
        let (target, times) = loop_bounds(operands)?;
        Ok(Instr::Again { target, times })
    } else if is_word(word, b"ret") {
        let from = one_variable(operands)?;
        Ok(Instr::Ret { from })
    } else {
        Err(FaultCode::UnknownWord)
    }
}
