// Prices a sample dwelling's year on the decree sheet and prints the bill.
#![tactic(auto)]

mod bill;
mod sample;

use bill::{print_dwelling, print_plan, print_price};
use decree::Decree;
use facts::Facts;
use sheet::choose;
use std::io;

fn main(rt: HostRuntime) -> io::Result<()> {
    println!(rt; "A dwelling's year on the maximum prices of the low-voltage schedule of 2004")?;
    println!(rt)?;
    let Some(form) = sample::year() else {
        return println!(rt; "The sample's month figures are outside their limits.");
    };
    let Ok(facts) = Facts::new(&form) else {
        return println!(rt; "The sample's facts are outside their limits.");
    };
    print_dwelling(&rt, &facts)?;
    let Some(plan) = choose(&Decree, &facts) else {
        return println!(rt; "No plan is permitted.");
    };
    print_plan(&rt, &facts, plan.code)?;
    print_price(&rt, &facts, plan)
}
