use brc_model::Choice;

/// One event of a run: a thread, and what is chosen for its step.
#[derive(Clone, Copy)]
pub struct Event {
    pub thread: usize,
    pub choice: Choice,
}
