use brc_c_text::Place;
use std::alloc::Global;

/// What a finding is about, and how its sources are called.
#[derive(Clone, Copy)]
pub struct About<'a> {
    pub alloc: Global,
    /// The names of the sources, by their numbers.
    pub sources: &'a [String],
    /// The function's name, or `None` for what is found outside functions.
    pub function: Option<&'a str>,
}

impl About<'_> {
    /// Returns the name of a place's source.
    pub(crate) fn file(&self, place: Place) -> &str {
        match self.sources.get(place.source) {
            Some(name) => name.as_str(),
            None => "?",
        }
    }
}
