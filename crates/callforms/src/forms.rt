// The boards that a line can ask for.

// A board as it is asked for, any numbers: its capacity, the limit of rows of a journal, and the length of its memory in bytes.
#[derive(Clone, Copy)]
pub enum BoardForm {
    Table {
        capacity: u64,
        length: u64,
    },
    Journal {
        capacity: u64,
        limit: u64,
        length: u64,
    },
}
