use crate::schedule::Schedule;

/// The text above a line of a schedule's text, as far as it has been read.
#[derive(Drop)]
pub enum Beginning {
    /// The first line alone.
    Opened,
    /// The first line and the number of workers.
    Staffed { workers: u8 },
    /// The numbers of workers and rows, and maybe calls and steps.
    Planned(Schedule),
}
