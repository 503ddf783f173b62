// The law over every run of calls on a cabinet: what its board holds, what was billed and what is owed, told from the calls and their answers alone.
#![tactic(auto)]

ghost use Rattle.law.specs.Law.{Law-stands};

// For every list of calls on a new cabinet, of any length, in any order and with refused ones among them, on every board that keeps the board's meaning and held no rows, and with any sheet at each settlement: each number has a row exactly if it is open, and that row is the writing of the account that its history makes; its balance is the sum of its settled periods' least prices, each rounded once, less its payments; each bill's plan is permitted and none permitted is cheaper; by day and by night the kWh read are the kWh billed and waiting; nobody was charged above any plans that they could have had; and every showing told the account as it stood.
pub fn law_stands()
    ensures { Law-stands }
{}
