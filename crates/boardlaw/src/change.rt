// A change to the row of one number: it is set, or removed.
#[derive(Clone, Copy)]
pub enum Change {
    Store(u64, [u8; 128]),
    Clear(u64),
}
