// The first byte of a block: whether it holds a row.
ghost use Rattle.std.specs.Prelude.{◌≡◌, ◌≤◌};
ghost use Rattle.std.specs.Option.{option_map};
ghost use Rattle.blocks.specs.Marks.{mark_byte, is_row};

// The byte of a block that holds this row, or none.
pub fn mark_of(row: Option<&[u8; 128]>) -> u8
    ensures value { result ≡ mark_byte (option_map (λ r. r.now) row.entry) }
    ensures bound { result ≤ 1 }
{
    match row {
        None => 0,
        Some(_) => 1,
    }
}

// Whether a block with this first byte holds a row.
pub fn is_row(byte: u8) -> bool
    ensures { result ≡ is_row byte }
{
    byte == 1
}
