// What every price sheet answers.
ghost use Rattle.std.specs.Prelude.{◌≡◌};
ghost use Rattle.sheet.specs.Tariff.{Tariff, Lawful};
ghost use Rattle.facts.specs.Usage.{usage_of};

use facts::Facts;

// A price sheet: a count of plan codes and, for each code and each set of facts, whether the plan is permitted and the two parts of its price. It has to show that each answer is what its meaning says.
pub trait Sheet {
    ghost tariff: { Self → Tariff };

    // How many codes there are; they begin at 0.
    fn count(&self) -> u64
        ensures { result ≡ (tariff self.now).count };

    // Whether the plan of a code is permitted for these facts.
    fn permits(&self, code: u64, facts: &Facts) -> bool
        ensures { result ≡ (tariff self.now).permitted code (usage_of facts.now) };

    // The fixed part and the energy part of the plan's price; 0 and 0 where it is not permitted.
    fn parts(&self, code: u64, facts: &Facts) -> (u64, u64)
        ensures { result ≡ (tariff self.now).parts code (usage_of facts.now) };

    ghost lawful: { (s : Self) → Lawful (tariff s) };
}
