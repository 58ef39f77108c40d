ghost use Rattle.std.specs.Prelude.{◌≡◌, [], ◌++◌, OnOk, decimal};
ghost use Rattle.brc_lang.specs.Grammar.{instruction};

use brc_lang::{Function, Instr, write_instruction};
use itoa::Buffer;
use std::alloc::{AllocError, Global};
use std::marker::Model;

/// A line of the trace while it is put together. It keeps its memory from line to line.
#[derive(Drop)]
pub struct Line {
    bytes: Vec<u8>,
}

impl Model for Line {
    ghost use Rattle.std.specs.Prelude.{ℕ, List};

    ghost Value = { List ℕ };

    ghost view = { λ l. l.bytes.items };
}

impl Line {
    /// Returns the empty line, for which no memory is taken.
    pub fn new(alloc: Global) -> Line
        ensures { result ≡ [] }
    {
        Line {
            bytes: Vec::new(alloc),
        }
    }

    /// Returns the bytes so far.
    pub fn as_bytes(&self) -> &[u8]
        ensures { result.now ≡ self.now }
    {
        self.bytes.as_slice()
    }

    /// Returns the bytes so far, and keeps none.
    pub fn into_bytes(self) -> Vec<u8>
        ensures { result.items ≡ self }
    {
        let Line { bytes } = self;
        bytes
    }

    /// Takes all bytes away. The line keeps their memory.
    pub fn clear(&mut self)
        ensures { self.new ≡ [] }
    {
        self.bytes.clear();
    }

    /// Adds the text.
    pub fn text(&mut self, text: &str) -> Result<(), AllocError>
        ensures { OnOk result (self.new ≡ self.old ++ text.now) }
    {
        self.bytes.extend_from_slice(text.as_bytes())
    }

    /// Adds the bytes.
    pub fn bytes(&mut self, bytes: &[u8]) -> Result<(), AllocError>
        ensures { OnOk result (self.new ≡ self.old ++ bytes.now) }
    {
        self.bytes.extend_from_slice(bytes)
    }

    /// Adds the instruction as a module of these functions spells it.
    pub fn instruction(&mut self, functions: &[Function], instr: Instr) -> Result<(), AllocError>
        ensures { OnOk result (self.new ≡ self.old ++ instruction functions.now instr) }
    {
        match write_instruction(functions, instr, &mut self.bytes) {
            Ok(()) => Ok(()),
            Err(_) => Err(AllocError),
        }
    }

    /// Adds the number's decimal digits.
    pub fn number(&mut self, number: u64) -> Result<(), AllocError>
        ensures { OnOk result (self.new ≡ self.old ++ decimal number) }
    {
        let mut digits = Buffer::new();
        self.bytes
            .extend_from_slice(digits.format(number).as_bytes())
    }
}
