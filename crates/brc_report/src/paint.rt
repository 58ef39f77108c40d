ghost use Rattle.std.specs.Prelude.{◌≡◌};
ghost use Rattle.brc_report.specs.Paint.{role_mark, mark_text, reset_text};

/// How a text for people is shown: plain, or with the colours of a terminal.
///
/// The colours are those of ECMA-48's Select Graphic Rendition, which every terminal of today reads.
#[derive(Clone, Copy, PartialEq, Eq)]
pub enum Paint {
    /// Without any mark: for files, pipes and tests.
    Plain,
    /// With escape sequences.
    Ansi,
}

/// What a part of a text is for its reader. Which colour it has is up to `Paint`.
#[derive(Clone, Copy)]
pub enum Role {
    /// The name of a rule of the step relation.
    Rule,
    /// What a step belongs to: an instruction, a claim, a part of an exit.
    Part,
    /// A word in memory: what a step found and what it left there.
    Word,
    /// That an object is born, dies or is closed.
    Life,
    /// The state of a variable.
    State,
    /// That all is well.
    Success,
    /// What is at fault.
    Fault,
    /// The code of a refusal or of a fault, as `C5`.
    Code,
    /// What is there to be looked up alone, as a step's number.
    Aside,
}

impl Paint {
    /// Returns what switches the role's colour on, which is empty in a plain text.
    pub fn on(self, role: Role) -> &'static str
        ensures { result.now ≡ mark_text self role }
    {
        match self {
            Paint::Plain => "",
            Paint::Ansi => role.mark(),
        }
    }

    /// Returns what switches each colour off, which is empty in a plain text.
    pub fn off(self) -> &'static str
        ensures { result.now ≡ reset_text self }
    {
        match self {
            Paint::Plain => "",
            Paint::Ansi => "\x1b[0m",
        }
    }
}

impl Role {
    fn mark(self) -> &'static str
        ensures { result.now ≡ role_mark self }
    {
        match self {
            Role::Rule => "\x1b[1m",
            Role::Part => "\x1b[36m",
            Role::Word => "\x1b[33m",
            Role::Life => "\x1b[35m",
            Role::State => "\x1b[36m",
            Role::Success => "\x1b[32m",
            Role::Fault => "\x1b[31m",
            Role::Code => "\x1b[1;31m",
            Role::Aside => "\x1b[2m",
        }
    }
}
