/// How many threads, rows and cells a machine has.
#[derive(Clone, Copy, Debug)]
pub struct Layout {
    /// The workers, beside main.
    pub workers: u8,
    /// The rows of each worker.
    pub rows: u16,
    /// The most cells of a list.
    pub cells: u8,
    /// The immortal lists, whose rows come after those of the workers.
    pub immortal_lists: u8,
    /// The numbers that the cells of the immortal lists name at the start, whose rows come after those of the lists.
    pub numbers: u16,
}
