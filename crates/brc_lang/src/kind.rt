ghost use Rattle.std.specs.Prelude.{◌≡◌};
ghost use Rattle.brc_lang.specs.Grammar.{kind_name};

/// The kind of an object: `none`, `num`, `list`, `file` or `sock` in the language.
#[derive(Clone, Copy, Debug, PartialEq, Eq)]
pub enum Kind {
    /// The object none, which is immortal (`Py_None`).
    None,
    Num,
    List,
    File,
    Sock,
    /// A kind that isn't known yet, as that of an item of a list before `as` asks for it.
    Any,
}

impl Kind {
    /// Returns the kind's word, as in `as v1 num else @3`. That of `Any` stands for a parameter of any kind.
    pub fn name(self) -> &'static str
        ensures { result.now ≡ kind_name self }
    {
        match self {
            Kind::None => "none",
            Kind::Num => "num",
            Kind::List => "list",
            Kind::File => "file",
            Kind::Sock => "sock",
            Kind::Any => "any",
        }
    }
}
