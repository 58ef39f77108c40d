use std::alloc::AllocError;

/// What gives the headers that a source names in quotes.
pub trait Headers {
    /// Appends the bytes of the header of this name, which the source of this number includes, and returns the header's
    /// own number. Returns `None` if there is none.
    fn load(
        &mut self,
        name: &[u8],
        from: usize,
        bytes: &mut Vec<u8>,
    ) -> Result<Option<usize>, AllocError>;
}
