// The table of the years.
use crate::arguments::Asked;
use estatelife::{Differences, Year};
use std::{fmt, io};
use tally::{Energy, YearSums};

// An amount in cents, written in euros and right-aligned.
#[derive(Clone, Copy)]
struct Euros(i128);

impl fmt::Display for Euros {
    fn fmt<W: fmt::Write>(&self, f: &mut fmt::Formatter<W>) -> fmt::Result {
        let whole = self.0 / 100;
        let part = self.0.unsigned_abs() % 100;
        if whole == 0 && self.0 < 0 {
            write!(f, "          -0.{part:02}")
        } else {
            write!(f, "{whole:>12}.{part:02}")
        }
    }
}

// The heading, with the units of the columns.
pub fn print_heading(rt: &impl Print, asked: &Asked) -> io::Result<()> {
    let Asked {
        dwellings,
        years,
        seed,
        ..
    } = *asked;
    println!(rt;
        "An estate of {dwellings} dwellings over {years} years (seed {seed}), on a table board and on a journal board side by side"
    )?;
    println!(rt)?;
    println!(rt;
        "  year  accounts   bills         kWh         kWh            EUR            EUR            EUR   calls  journal"
    )?;
    println!(rt;
        "            open              by day    by night         billed           paid          owing refused  cleared"
    )
}

fn print_row(rt: &impl Print, year: &Year) -> io::Result<()> {
    let Year {
        occupied,
        owing,
        sums,
        clearings,
    } = *year;
    let YearSums { refused, bills, .. } = sums;
    let Energy { day, night } = sums.energy;
    let billed = Euros(sums.charged as i128);
    let paid = Euros(sums.paid as i128);
    let owing = Euros(owing);
    print!(rt; "{occupied:>10}{bills:>8}{day:>12}{night:>12}")?;
    println!(rt; "{billed}{paid}{owing}{refused:>8}{clearings:>9}")
}

// A year's line.
pub fn print_year(rt: &impl Print, number: u64, year: &Year) -> io::Result<()> {
    print!(rt; "{number:>6}")?;
    print_row(rt, year)
}

// The line of all years together.
pub fn print_total(rt: &impl Print, total: &Year) -> io::Result<()> {
    print!(rt; " total")?;
    print_row(rt, total)
}

// How many answers were held against each other and against the sums, and how many differed.
pub fn print_checks(
    rt: &impl Print,
    calls: u64,
    shown: u64,
    differences: Differences,
) -> io::Result<()> {
    let Differences {
        boards,
        outcomes,
        accounts,
    } = differences;
    println!(rt)?;
    println!(rt;
        "{calls:>10} calls made on each board; answered differently by the two: {boards}"
    )?;
    println!(rt;
        "{calls:>10} calls meant to be accepted or refused; answered otherwise: {outcomes}"
    )?;
    println!(rt;
        "{shown:>10} numbers shown at year ends; balance or kWh other than bills, payments and readings give: {accounts}"
    )?;
    println!(rt)?;
    if differences == Differences::default() {
        println!(rt; "Both boards agree, and the ledger agrees with the meters.")
    } else {
        println!(rt; "There are differences.")
    }
}
