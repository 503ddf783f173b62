// The entries of a journal in its memory, and how stale ones are dropped.
ghost use Rattle.std.specs.Prelude.{◌≡◌, ◌+◌, ◌/◌, ◌<◌, ◌≤◌, IfSome, MatchOption, if◌then◌else◌, length, replicate, vec_items, vec_len, slice_index, slice_set};
ghost use Rattle.std.specs.Option.{option_map};
ghost use Rattle.board.specs.Meaning.{standing};
ghost use Rattle.blocks.specs.Blocks.{block, with_block};
ghost use Rattle.blocks.specs.Marks.{is_row};
ghost use Rattle.journal.specs.Replay.{Leads};
ghost use Rattle.journal.specs.Entries.{note_of, notes, entry_rows, latest_number};

use blocks::{Blocks, is_row, mark_of};
use board::MOST_NUMBERS;

// The bytes of an entry: a mark, a number and a row.
pub const ENTRY: usize = 131;

// The entries of a journal, and for each number one more than the place of its latest entry, or 0.
#[derive(Drop)]
pub struct Entries {
    blocks: Blocks<ENTRY>,
    latest: [u16; MOST_NUMBERS],
    capacity: u64,
    ghost few: { capacity ≤ 4096 },
    ghost most: { blocks.count ≤ 65535 },
}

impl Entries {
    // Entries over a memory, whatever it held, with none in use.
    pub fn unused(memory: Vec<u8>, capacity: u64) -> Entries
        requires few { capacity ≤ 4096 }
        requires most { vec_len memory / 131 ≤ 65535 }
        ensures capacity { result.capacity ≡ capacity }
        ensures places { result.blocks.count ≡ vec_len memory / 131 }
        ensures index { result.latest ≡ replicate 4096 0 }
    {
        Entries {
            blocks: Blocks::zeros(memory),
            latest: [0; MOST_NUMBERS],
            capacity,
        }
    }

    // How many numbers there are.
    pub fn capacity(&self) -> u64
        ensures { result ≡ self.now.capacity }
    {
        self.capacity
    }

    // How many entries the memory has room for.
    pub fn places(&self) -> usize
        ensures { result ≡ self.now.blocks.count }
    {
        self.blocks.count()
    }

    // The place of the latest entry of a number.
    pub fn latest(&self, number: usize) -> Option<usize>
        requires { number < self.now.capacity }
        ensures { MatchOption result (slice_index self.now.latest number ≡ 0) (λ place. slice_index self.now.latest number ≡ place + 1) }
    {
        (self.latest[number] as usize).checked_sub(1)
    }

    // The row in the entry at a place.
    pub fn row(&self, place: usize) -> Option<&[u8]>
        requires { place < self.now.blocks.count }
        ensures value { option_map (λ x. x.now) result ≡ (note_of (block 131 place (vec_items self.now.blocks.memory))).1 }
        ensures len { IfSome result (λ x. length x.now ≡ 128) }
    {
        let entry = self.blocks.read(place);
        if !is_row(entry[0]) {
            return None;
        }
        Some(&entry[3..])
    }

    // Writes at a place that a number has this row, or none; the index then leads there.
    pub fn write(&mut self, place: usize, number: usize, row: Option<&[u8; 128]>)
        requires room { place < self.old.blocks.count }
        requires inside { number < self.old.capacity }
        ensures note { note_of (block 131 place (vec_items self.new.blocks.memory)) ≡ (number, option_map (λ r. r.now) row.entry) }
        ensures others { vec_items self.new.blocks.memory ≡ with_block 131 place (block 131 place (vec_items self.new.blocks.memory)) (vec_items self.old.blocks.memory) }
        ensures index { self.new.latest ≡ slice_set self.old.latest number (place + 1) }
        ensures capacity { self.new.capacity ≡ self.old.capacity }
        ensures places { self.new.blocks.count ≡ self.old.blocks.count }
    {
        let [high, low] = (number as u16).to_be_bytes();
        let head = [mark_of(row), high, low];
        self.blocks.write(place, &head, row.unwrap_or(&[0; 128]));
        self.latest[number] = (place + 1) as u16;
    }

    // The number of the entry at a place, if no later entry speaks of it.
    fn latest_number(&self, place: usize) -> Option<usize>
        requires { place < self.now.blocks.count }
        ensures value { result ≡ latest_number self.now.capacity self.now.latest (block 131 place (vec_items self.now.blocks.memory)) place }
        ensures bound { IfSome result (λ n. n < 4096) }
    {
        let entry = self.blocks.read(place);
        let number = u16::from_be_bytes([entry[1], entry[2]]) as usize;
        if number as u64 >= self.capacity {
            return None;
        }
        if self.latest[number] as usize != place + 1 {
            return None;
        }
        Some(number)
    }

    // Moves the entry at `place`, the latest of its number, to `next` if it holds a row; the index then leads there, or nowhere.
    // Says how many entries are kept by then.
    fn keep_latest(&mut self, number: usize, place: usize, next: usize) -> usize
        requires few { number < 4096 }
        requires inside { place < self.old.blocks.count }
        requires behind { next ≤ place }
        ensures items { vec_items self.new.blocks.memory ≡ (if is_row (slice_index (block 131 place (vec_items self.old.blocks.memory)) 0) then with_block 131 next (block 131 place (vec_items self.old.blocks.memory)) (vec_items self.old.blocks.memory) else vec_items self.old.blocks.memory) }
        ensures index { self.new.latest ≡ slice_set self.old.latest number (if is_row (slice_index (block 131 place (vec_items self.old.blocks.memory)) 0) then next + 1 else 0) }
        ensures count { result ≡ (if is_row (slice_index (block 131 place (vec_items self.old.blocks.memory)) 0) then next + 1 else next) }
        ensures capacity { self.new.capacity ≡ self.old.capacity }
        ensures places { self.new.blocks.count ≡ self.old.blocks.count }
    {
        let entry = self.blocks.read(place);
        if !is_row(entry[0]) {
            self.latest[number] = 0;
            return next;
        }
        self.blocks.copy(place, next);
        self.latest[number] = (next + 1) as u16;
        next + 1
    }

    // Keeps the entry of each row that stands, in their order, at the front, and says how many they are.
    // By places, since the memory that they stand in is written on the way.
    pub fn drop_stale(&mut self, used: usize) -> usize
        requires within { used ≤ self.old.blocks.count }
        requires index { Leads self.old.capacity self.old.latest (notes used (vec_items self.old.blocks.memory)) }
        ensures same { entry_rows self.old.capacity result (vec_items self.new.blocks.memory) ≡ entry_rows self.old.capacity used (vec_items self.old.blocks.memory) }
        ensures count { result ≡ standing (entry_rows self.old.capacity used (vec_items self.old.blocks.memory)) }
        ensures index { Leads self.old.capacity self.new.latest (notes result (vec_items self.new.blocks.memory)) }
        ensures bound { result ≤ used }
        ensures capacity { self.new.capacity ≡ self.old.capacity }
        ensures places { self.new.blocks.count ≡ self.old.blocks.count }
    {
        let mut next = 0;
        for place in 0..used {
            if let Some(number) = self.latest_number(place) {
                next = self.keep_latest(number, place, next);
            }
        }
        next
    }
}
