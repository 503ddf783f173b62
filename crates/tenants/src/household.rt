// Kinds of households.
ghost use Rattle.std.specs.Prelude.{◌≡◌};
ghost use Rattle.tenants.specs.Households.{household_at, profile_of, monthly_of, billed_after};

use facts::ProfileForm;

#[derive(Clone, Copy, PartialEq, Eq, Debug)]
pub enum Household {
    Flat,
    // a house with a boiler on a night-reserved circuit
    House,
    // a house with storage heating and a heat pump that may be cut off at peak hours
    HeatedHouse,
    // a flat of a protected customer
    ProtectedFlat,
    // a protected family with an interruptible boiler
    ProtectedFamily,
    // a large house, part of whose power is exempt
    Villa,
    Shop,
    // a workshop with six circuits, whose registers go round every few years
    Workshop,
}

// All households, from which a tenant's is drawn.
pub(crate) const HOUSEHOLDS: [Household; 8] = [
    Household::Flat,
    Household::House,
    Household::HeatedHouse,
    Household::ProtectedFlat,
    Household::ProtectedFamily,
    Household::Villa,
    Household::Shop,
    Household::Workshop,
];

impl Household {
    // The household of a number below eight; of any other number the last.
    pub fn from_number(number: u64) -> Household
        ensures { result ≡ household_at number }
    {
        HOUSEHOLDS
            .get(number as usize)
            .copied()
            .unwrap_or(Household::Workshop)
    }

    // What is agreed with it.
    pub fn profile(self) -> ProfileForm
        ensures { result ≡ profile_of self }
    {
        let (class, marks, power, exempt) = match self {
            Household::Flat => (0, 0, 37, 0),
            Household::House => (0, 1, 92, 0),
            Household::HeatedHouse => (0, 3, 125, 0),
            Household::ProtectedFlat => (0, 4, 41, 0),
            Household::ProtectedFamily => (0, 5, 69, 0),
            Household::Villa => (0, 3, 300, 120),
            Household::Shop => (1, 1, 250, 0),
            Household::Workshop => (1, 3, 630, 50),
        };
        let kinds = match self {
            Household::Flat | Household::ProtectedFlat => [1, 0, 0, 0, 0, 0],
            Household::House => [1, 2, 0, 0, 0, 0],
            Household::HeatedHouse => [1, 2, 3, 0, 0, 0],
            Household::ProtectedFamily => [1, 3, 0, 0, 0, 0],
            Household::Villa => [1, 1, 2, 3, 0, 0],
            Household::Shop => [1, 1, 3, 0, 0, 0],
            Household::Workshop => [1, 1, 2, 3, 1, 1],
        };
        ProfileForm {
            class,
            marks,
            power,
            exempt,
            kinds,
        }
    }

    // The kWh that it uses in a month on each register, per circuit by day then by night.
    pub fn monthly(self) -> [u16; 12]
        ensures { result ≡ monthly_of self }
    {
        match self {
            Household::Flat => [110, 45, 0, 0, 0, 0, 0, 0, 0, 0, 0, 0],
            Household::House => [190, 70, 0, 210, 0, 0, 0, 0, 0, 0, 0, 0],
            Household::HeatedHouse => [240, 110, 0, 520, 330, 610, 0, 0, 0, 0, 0, 0],
            Household::ProtectedFlat => [60, 25, 0, 0, 0, 0, 0, 0, 0, 0, 0, 0],
            Household::ProtectedFamily => [150, 80, 40, 90, 0, 0, 0, 0, 0, 0, 0, 0],
            Household::Villa => [480, 260, 310, 140, 0, 730, 420, 660, 0, 0, 0, 0],
            Household::Shop => [900, 200, 450, 120, 260, 310, 0, 0, 0, 0, 0, 0],
            Household::Workshop => [
                7_600, 2_100, 3_900, 900, 0, 4_200, 1_500, 1_900, 5_200, 800, 300, 6_100,
            ],
        }
    }

    // The months behind the next one after which a reading is billed: homes are billed once a year, the others twice.
    pub fn billed_after(self) -> u64
        ensures { result ≡ billed_after self }
    {
        match self {
            Household::Shop | Household::Workshop => 3,
            _ => 9,
        }
    }
}
