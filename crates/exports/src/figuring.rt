// Figures that a caller asks for by numbers.
ghost use Rattle.std.specs.Prelude.{◌≡◌};
ghost use Rattle.figures.specs.Months.{month_of};
ghost use Rattle.rating.specs.Ratings.{rating_of};
ghost use Rattle.exports.specs.Figures.{ne_or_none, tenths_or_none};

use figures::Month;
use rating::rating;

// The N_E of a month with the wage index s (in 0.00001), the materials index Mx (in 0.001) and N_C (in ten-thousandths), in ten-thousandths; 0 where one of the four is outside its limits.
#[unsafe(no_mangle)]
pub extern "C" fn funderaky_month_ne(s: u64, mx: u64, nc: u64) -> u64
    ensures { result ≡ ne_or_none (month_of s mx nc) }
{
    Month::from_indices(s, mx, nc).map_or(0, |month| month.ne() as u64)
}

// The tenths of a kVA that a breaker of this rated current makes available on a network; 0 outside the table.
#[unsafe(no_mangle)]
pub extern "C" fn funderaky_rating(network: u64, ampere: u64) -> u64
    ensures { result ≡ tenths_or_none (rating_of network ampere) }
{
    rating(network, ampere).map_or(0, |tenths| tenths as u64)
}
