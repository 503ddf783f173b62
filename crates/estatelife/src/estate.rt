// An estate, month by month.
use crate::fault::EstateFault;
use crate::office::{Differences, Office};
use crate::year::Year;
use chance::Chance;
use house::House;
use lineforms::SheetName;
use market::{MonthIndices, price_list};
use run::Call;
use std::alloc::Global;
use tenants::{Round, Visit};

#[derive(Drop)]
pub struct Estate {
    chance: Chance,
    month: u64,
    indices: MonthIndices,
    house: House,
    office: Office,
    // the calls of the last round
    calls: Vec<Call<SheetName>>,
}

// The lots of the market are drawn at places of their own, behind those of the dwellings.
const MONTHS: u64 = 10_000;

const YEARS: u64 = 10_001;

impl Estate {
    // An empty estate of so many dwellings. All memory but that of a round's calls is taken here.
    pub fn new(heap: Global, seed: u64, dwellings: u64) -> Result<Estate, EstateFault> {
        Ok(Estate {
            chance: Chance::new(seed),
            month: 0,
            indices: MonthIndices::first(),
            house: House::new(),
            office: Office::new(heap, dwellings)?,
            calls: Vec::new(heap),
        })
    }

    // The calls of the last round, in their order.
    pub fn calls(&self) -> &[Call<SheetName>] {
        self.calls.as_slice()
    }

    pub fn differences(&self) -> Differences {
        self.office.differences()
    }

    // How many accounts and vacant numbers were shown and held against the sums.
    pub fn shown(&self) -> u64 {
        self.office.shown()
    }

    // Reads the price list of a new year and hands its bytes on.
    pub fn begin_year(&mut self, heap: Global) -> Result<Vec<u8>, EstateFault> {
        let bytes = price_list(heap, self.chance.at(YEARS).at(self.month / 12))?;
        self.house.read(bytes.as_slice())?;
        Ok(bytes)
    }

    // Posts the month that begins.
    pub fn post(&mut self) -> Result<(), EstateFault> {
        self.calls.clear();
        let MonthIndices { s, mx, nc } = self.indices;
        self.calls.push(Call::Post { s, mx, nc })?;
        self.indices = self.indices.next(self.chance.at(MONTHS).at(self.month));
        self.make_calls(false)
    }

    // Makes a round through all dwellings.
    pub fn make(&mut self, round: Round) -> Result<(), EstateFault> {
        self.plan(round)?;
        self.make_calls(round.is_slip())
    }

    // The month ends.
    pub fn end_month(&mut self) {
        self.month = self.month.saturating_add(1);
    }

    // What the year came to.
    pub fn end_year(&mut self) -> Year {
        self.office.end_year()
    }

    // Plans the calls of a round.
    fn plan(&mut self, round: Round) -> Result<(), EstateFault> {
        self.calls.clear();
        for (i, tally) in self.office.tallies().iter().enumerate() {
            let visit = Visit {
                estate: self.chance,
                number: i as u64,
                month: self.month,
                tally: *tally,
            };
            if let Some(call) = round.call(&visit) {
                self.calls.push(call)?;
            }
        }
        Ok(())
    }

    // Makes the calls that were planned.
    fn make_calls(&mut self, refused: bool) -> Result<(), EstateFault> {
        for call in self.calls.iter() {
            self.office.ask(call, self.house, refused)?;
        }
        Ok(())
    }
}
