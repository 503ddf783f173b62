// The office of an estate: it makes calls on both boards and keeps its own sums.
use crate::year::Year;
use house::House;
use lineforms::SheetName;
use run::{Answer, Call, NoRoom};
use sheets::AnySheet;
use std::alloc::{AllocError, Global};
use std::mem;
use tally::{Tally, YearSums, after, is_shown};
use twoboards::{NoPair, Pair, is_alike};

// How often an answer was not the one expected: it differed from board to board; a call was accepted that should be refused, or refused that should be accepted; an account was shown otherwise than the sums say.
#[derive(Clone, Copy, PartialEq, Eq, Default, Debug)]
pub struct Differences {
    pub boards: u64,
    pub outcomes: u64,
    pub accounts: u64,
}

#[derive(Drop)]
pub struct Office {
    pair: Pair,
    // the sums of each number's account, none where it is vacant
    tallies: Vec<Option<Tally>>,
    on_table: Vec<Answer>,
    on_journal: Vec<Answer>,
    sums: YearSums,
    clearings: u64,
    differences: Differences,
    shown: u64,
}

// Counts one more where the case is met.
fn count(counter: &mut u64, met: bool) {
    if met {
        *counter = counter.saturating_add(1);
    }
}

impl Office {
    pub fn new(heap: Global, dwellings: u64) -> Result<Office, NoPair> {
        let pair = Pair::new(heap, dwellings)?;
        let tallies = vec![in heap; None; dwellings as usize]?;
        Ok(Office {
            pair,
            tallies,
            on_table: Vec::with_capacity(heap, 1)?,
            on_journal: Vec::with_capacity(heap, 1)?,
            sums: YearSums::default(),
            clearings: 0,
            differences: Differences::default(),
            shown: 0,
        })
    }

    pub fn tallies(&self) -> &[Option<Tally>] {
        self.tallies.as_slice()
    }

    pub fn differences(&self) -> Differences {
        self.differences
    }

    pub fn shown(&self) -> u64 {
        self.shown
    }

    // Takes in a call and its answers.
    fn take(&mut self, call: &Call<SheetName>, refused: bool) {
        let ([answer], [other]) = (self.on_table.as_slice(), self.on_journal.as_slice()) else {
            return;
        };
        let was_refused = matches!(answer, Answer::Refused(_));
        count(&mut self.differences.boards, !is_alike(answer, other));
        count(&mut self.differences.outcomes, was_refused != refused);
        self.sums.take(call, answer);
        let Some(number) = call.number() else {
            return;
        };
        let Some(tally) = self.tallies.get_mut(number as usize) else {
            return;
        };
        *tally = after(*tally, call, answer);
        if matches!(call, Call::Show { .. }) {
            count(&mut self.shown, true);
            count(&mut self.differences.accounts, !is_shown(*tally, answer));
        }
    }

    // Makes a call on both boards, which should be refused or not.
    pub fn ask(
        &mut self,
        call: &Call<SheetName>,
        house: House,
        refused: bool,
    ) -> Result<(), NoRoom> {
        let before = self.pair.entries_in_use();
        self.on_table.clear();
        self.on_journal.clear();
        let calls = [call.map_sheet(|name| AnySheet::named(*name, house))];
        self.pair
            .run(&calls, &mut self.on_table, &mut self.on_journal)?;
        let fewer = self.pair.entries_in_use() < before;
        count(&mut self.clearings, fewer);
        self.take(call, refused);
        Ok(())
    }

    // What the year came to; the next one begins.
    pub fn end_year(&mut self) -> Year {
        let open = self.tallies.iter().flatten();
        let owing = self.tallies.iter().flatten();
        Year {
            occupied: open.count() as u64,
            owing: owing.fold(0, |sum: i128, tally| sum.saturating_add(tally.owed())),
            sums: mem::take(&mut self.sums),
            clearings: mem::take(&mut self.clearings),
        }
    }
}
