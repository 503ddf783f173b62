// The blocks of a memory: functions that take any memory and any width, and ask each time that the block lies there, and `Blocks`, which keeps one width and knows how many blocks it has.
// A board shows at each call that the block is among them; no figure from outside reaches these functions.
ghost use Rattle.std.specs.Prelude.{◌≡◌, ◌+◌, ◌*◌, ◌/◌, ◌<◌, ◌≤◌, ◌++◌, length, replicate, vec_items, vec_len};
ghost use Rattle.blocks.specs.Blocks.{bytes_at, with_bytes, block, with_block, Bytes};

// A memory and how many blocks of a width it has. What is left behind the last of them is wiped at the making, and not written after.
#[derive(Drop)]
pub struct Blocks<const WIDTH: usize> {
    memory: Vec<u8>,
    count: usize,
    ghost fits: { WIDTH * count ≤ vec_len memory },
    ghost bytes: { Bytes (vec_items memory) },
}

// The block at `index`, of a width.
pub fn read_block(memory: &Vec<u8>, width: usize, index: usize) -> &[u8]
    requires { width * index + width ≤ vec_len memory.now }
    ensures value { result.now ≡ block width index (vec_items memory.now) }
    ensures len { length result.now ≡ width }
{
    let start = width * index;
    &memory.as_slice()[start..start + width]
}

// Writes bytes over those from `start` on.
fn write_bytes(memory: &mut Vec<u8>, start: usize, bytes: &[u8])
    requires { start + length bytes.now ≤ vec_len memory.old }
    ensures items { vec_items memory.new ≡ with_bytes start (length bytes.now) bytes.now (vec_items memory.old) }
    ensures len { vec_len memory.new ≡ vec_len memory.old }
{
    let end = start + bytes.len();
    memory.as_mut_slice()[start..end].copy_from_slice(bytes);
}

// Writes a head and then a body from `start` on.
fn write_both(memory: &mut Vec<u8>, start: usize, head: &[u8], body: &[u8])
    requires { start + (length head.now + length body.now) ≤ vec_len memory.old }
    ensures items { vec_items memory.new ≡ with_bytes start (length head.now + length body.now) (head.now ++ body.now) (vec_items memory.old) }
    ensures len { vec_len memory.new ≡ vec_len memory.old }
    ensures bytes { Bytes (vec_items memory.old) → Bytes (vec_items memory.new) }
{
    write_bytes(memory, start, head);
    write_bytes(memory, start + head.len(), body);
}

// Writes a block, a head and then a body, over the one at `index`.
pub fn write_block(memory: &mut Vec<u8>, index: usize, head: &[u8], body: &[u8])
    requires { (length head.now + length body.now) * index + (length head.now + length body.now) ≤ vec_len memory.old }
    ensures items { vec_items memory.new ≡ with_block (length head.now + length body.now) index (head.now ++ body.now) (vec_items memory.old) }
    ensures len { vec_len memory.new ≡ vec_len memory.old }
    ensures bytes { Bytes (vec_items memory.old) → Bytes (vec_items memory.new) }
{
    let width = head.len() + body.len();
    write_both(memory, width * index, head, body);
}

// Copies `width` bytes from one start to another.
fn move_bytes(memory: &mut Vec<u8>, width: usize, from: usize, to: usize)
    requires from_fits { from + width ≤ vec_len memory.old }
    requires to_fits { to + width ≤ vec_len memory.old }
    ensures items { vec_items memory.new ≡ with_bytes to width (bytes_at from width (vec_items memory.old)) (vec_items memory.old) }
    ensures len { vec_len memory.new ≡ vec_len memory.old }
{
    memory.copy_within(from..from + width, to);
}

// Copies the block at `from`, of a width, over the one at `to`.
pub fn move_block(memory: &mut Vec<u8>, width: usize, from: usize, to: usize)
    requires from_fits { width * from + width ≤ vec_len memory.old }
    requires to_fits { width * to + width ≤ vec_len memory.old }
    ensures items { vec_items memory.new ≡ with_block width to (block width from (vec_items memory.old)) (vec_items memory.old) }
    ensures len { vec_len memory.new ≡ vec_len memory.old }
{
    move_bytes(memory, width, width * from, width * to);
}

impl<const WIDTH: usize> Blocks<WIDTH> {
    // As many blocks of zeros as a memory has room for, whatever it held.
    pub fn zeros(mut memory: Vec<u8>) -> Blocks<WIDTH>
        requires { 1 ≤ WIDTH }
        ensures count { result.count ≡ vec_len memory / WIDTH }
        ensures items { vec_items result.memory ≡ replicate (vec_len memory) 0 }
    {
        memory.fill(0);
        let count = memory.len() / WIDTH;
        Blocks { memory, count }
    }

    // How many blocks there are.
    pub fn count(&self) -> usize
        ensures { result ≡ self.now.count }
    {
        self.count
    }

    // The block at `index`.
    pub fn read(&self, index: usize) -> &[u8]
        requires { index < self.now.count }
        ensures value { result.now ≡ block WIDTH index (vec_items self.now.memory) }
        ensures len { length result.now ≡ WIDTH }
    {
        read_block(&self.memory, WIDTH, index)
    }

    // Writes a head and then a body over the block at `index`.
    pub fn write(&mut self, index: usize, head: &[u8], body: &[u8])
        requires inside { index < self.old.count }
        requires whole { length head.now + length body.now ≡ WIDTH }
        ensures items { vec_items self.new.memory ≡ with_block WIDTH index (head.now ++ body.now) (vec_items self.old.memory) }
        ensures len { vec_len self.new.memory ≡ vec_len self.old.memory }
        ensures count { self.new.count ≡ self.old.count }
    {
        write_block(&mut self.memory, index, head, body);
    }

    // Copies the block at `from` over the one at `to`.
    pub fn copy(&mut self, from: usize, to: usize)
        requires from_inside { from < self.old.count }
        requires to_inside { to < self.old.count }
        ensures items { vec_items self.new.memory ≡ with_block WIDTH to (block WIDTH from (vec_items self.old.memory)) (vec_items self.old.memory) }
        ensures len { vec_len self.new.memory ≡ vec_len self.old.memory }
        ensures count { self.new.count ≡ self.old.count }
    {
        move_block(&mut self.memory, WIDTH, from, to);
    }
}
