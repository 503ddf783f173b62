// The price list that an estate makes for itself each year, as the bytes of a house sheet.
ghost use Rattle.std.specs.Prelude.{◌≡◌, IfOk};
ghost use Rattle.house.specs.Writing.{written};
ghost use Rattle.market.specs.Pricelists.{home_line, large_line, price_lines};

use chance::Chance;
use house::{Line, line_bytes};
use pricing::UnitRate;
use std::alloc::{AllocError, Global};

// The bytes of the field that ends a sheet.
const END: [u8; 3] = [127, 0, 0];

// A plan for everybody.
fn home_line(lot: Chance) -> Line
    ensures { result ≡ home_line lot.seed }
{
    Line {
        charge: 8_000 + lot.below(0, 8_001) as u32,
        charge_a_tenth: 300 + lot.below(1, 101) as u16,
        free_tenths: 100,
        least_power: 0,
        day: UnitRate {
            ne: 7_600 + lot.below(2, 1_001) as u16,
            nc: 1_600 + lot.below(3, 201) as u16,
        },
        night: UnitRate {
            ne: 3_300 + lot.below(4, 601) as u16,
            nc: 1_300 + lot.below(5, 201) as u16,
        },
    }
}

// A plan for 20 kVA and more: dearer by the year, cheaper by the kWh.
fn large_line(lot: Chance) -> Line
    ensures { result ≡ large_line lot.seed }
{
    Line {
        charge: 60_000 + lot.below(6, 30_001) as u32,
        charge_a_tenth: 500 + lot.below(7, 501) as u16,
        free_tenths: 100,
        least_power: 200,
        day: UnitRate {
            ne: 5_200 + lot.below(8, 801) as u16,
            nc: 1_698,
        },
        night: UnitRate {
            ne: 2_500 + lot.below(9, 601) as u16,
            nc: 1_396,
        },
    }
}

// The bytes of a year's price list, both plans.
pub fn price_list(heap: Global, lot: Chance) -> Result<Vec<u8>, AllocError>
    ensures { IfOk result (λ v. v.items ≡ written (price_lines lot.seed)) }
{
    let mut bytes = Vec::new(heap);
    bytes.extend_from_slice(&line_bytes(&home_line(lot)))?;
    bytes.extend_from_slice(&line_bytes(&large_line(lot)))?;
    bytes.extend_from_slice(&END)?;
    Ok(bytes)
}
