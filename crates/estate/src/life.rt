// The years of an estate, one after the other.
use crate::arguments::Asked;
use crate::printing::{CallLine, print_board, print_house};
use crate::report::{print_checks, print_heading, print_total, print_year};
use estatelife::Estate;
use tenants::Round;
use twoboards::journal_length;

// The rounds of a month, in their order.
const MONTH: [Round; 8] = [
    Round::MovingIn,
    Round::Reading,
    Round::Slipping(64),
    Round::Settling,
    Round::Slipping(65),
    Round::Paying,
    Round::MovingOut,
    Round::Slipping(66),
];

// An estate and what is asked of it.
#[derive(Drop)]
struct Life {
    estate: Estate,
    asked: Asked,
}

impl Life {
    fn print_calls(&self, rt: &HostRuntime) -> anyhow::Result<()> {
        if self.asked.script {
            for call in self.estate.calls() {
                let line = CallLine(call);
                println!(rt; "{line}")?;
            }
        }
        Ok(())
    }

    // Says on standard error how far the work is.
    fn print_progress(&self, rt: &HostRuntime, year: u64) -> anyhow::Result<()> {
        let years = self.asked.years;
        eprintln!(rt; "year {year} of {years}")?;
        Ok(())
    }

    fn make(&mut self, rt: &HostRuntime, round: Round) -> anyhow::Result<()> {
        self.estate.make(round)?;
        self.print_calls(rt)
    }

    fn run_month(&mut self, rt: &HostRuntime) -> anyhow::Result<()> {
        self.estate.post()?;
        self.print_calls(rt)?;
        for round in MONTH {
            self.make(rt, round)?;
        }
        self.estate.end_month();
        Ok(())
    }

    fn run_year(&mut self, rt: &HostRuntime) -> anyhow::Result<()> {
        let list = self.estate.begin_year(rt.alloc())?;
        if self.asked.script {
            print_house(rt, list.as_slice())?;
        }
        for _ in 0..12u8 {
            self.run_month(rt)?;
        }
        self.make(rt, Round::Showing)
    }

    // Prints all calls of the estate as a script.
    // Beside the next method, since that one adds the years up and prints a row for each.
    fn run_script(&mut self, rt: &HostRuntime) -> anyhow::Result<()> {
        let dwellings = self.asked.dwellings;
        print_board(rt, dwellings, journal_length(dwellings))?;
        for year in 1..=self.asked.years {
            self.run_year(rt)?;
            self.print_progress(rt, year)?;
        }
        Ok(())
    }

    // Prints a line a year, and what was held against each other.
    fn run_table(&mut self, rt: &HostRuntime) -> anyhow::Result<()> {
        print_heading(rt, &self.asked)?;
        let mut total = self.estate.end_year();
        for year in 1..=self.asked.years {
            self.run_year(rt)?;
            let row = self.estate.end_year();
            print_year(rt, year, &row)?;
            self.print_progress(rt, year)?;
            total = total.then(row);
        }
        print_total(rt, &total)?;
        let estate = &self.estate;
        print_checks(rt, total.sums.calls, estate.shown(), estate.differences())?;
        Ok(())
    }
}

// Runs the estate that is asked for.
pub fn run(rt: &HostRuntime, asked: Asked) -> anyhow::Result<()> {
    let estate = Estate::new(rt.alloc(), asked.seed, asked.dwellings)?;
    let mut life = Life { estate, asked };
    if asked.script {
        life.run_script(rt)
    } else {
        life.run_table(rt)
    }
}
