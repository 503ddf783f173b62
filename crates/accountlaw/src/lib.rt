// What holds of accounts whatever happens to them.
#![tactic(auto)]

ghost use Rattle.accountlaw.specs.Moves.{Readings-join, Settlements-book, Payments-lower};
ghost use Rattle.accountlaw.specs.Readings.{Registers-add-up};
ghost use Rattle.accountlaw.specs.Limits.{Steps-keep-limits};

// A reading joins what its registers counted to what waits, a settlement books its cents and a payment lowers the balance, and each of them moves nothing else; over any list of readings a register's differences add up to what its meter counted; every step keeps the limits of an account.
pub fn accounts_keep_their_laws()
    ensures readings { Readings-join }
    ensures settlements { Settlements-book }
    ensures payments { Payments-lower }
    ensures registers { Registers-add-up }
    ensures limits { Steps-keep-limits }
{}
