// A row that is being written.
ghost use Rattle.std.specs.Prelude.{◌≤◌};

// The bytes of a row and how many of them are written, from the front. A made cabinet allocates nothing, so a row grows in its own 128 bytes and not in a Vec.
pub struct Writer {
    pub bytes: [u8; 128],
    pub at: usize,
    ghost within: { at ≤ 128 },
}
