use brc_c_text::Symbol;

/// What the symbol of a type is a tag of.
#[derive(Clone, Copy, PartialEq, Eq)]
pub enum Tag {
    Struct,
    Union,
    Enum,
}

/// A type, as far as the reader asks for it.
#[derive(Clone, Copy, PartialEq, Eq)]
pub struct TypeName {
    /// The last of its symbols that is no qualifier, or `int` if there is none.
    pub symbol: Symbol,
    pub tag: Option<Tag>,
    /// How often it is a pointer or an array.
    pub stars: u32,
    /// Whether it is a pointer to a function, whose result the symbol and the other stars then name.
    pub is_function: bool,
}

impl TypeName {
    /// Returns the type of pointers to it.
    pub fn pointer(self) -> TypeName {
        TypeName {
            stars: self.stars.saturating_add(1),
            ..self
        }
    }
}

/// Types of other libraries whose names sound like those of objects.
const FOREIGN: [&[u8]; 5] = [
    b"GObject",
    b"JSObject",
    b"NSObject",
    b"xmlXPathObject",
    b"CXXObject",
];

/// Returns whether a type of this name is one of objects, as long as nothing declares it as something else.
pub fn names_objects(name: &[u8]) -> bool {
    !FOREIGN.contains(&name) && (name.ends_with(b"Object") || name.ends_with(b"object"))
}
