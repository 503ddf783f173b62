// A generator without state: each number is made from the seed and the place that it is drawn for, by the multiplications and shifts of SplitMix64.
ghost use Rattle.std.specs.Prelude.{◌≡◌, ◌<◌};
ghost use Rattle.chance.specs.Drawn.{stirred, mixed, drawn, drawn_below, DrawnFrom};

// The distance between the places of a sequence.
const STRIDE: u64 = 0x9e37_79b9_7f4a_7c15;

// One turn of the mixing: the high bits join the low ones, and a product spreads them again.
fn stir(value: u64, shift: u32, factor: u64) -> u64
    requires { shift < 64 }
    ensures { result ≡ stirred value shift factor }
{
    (value ^ (value >> shift)).wrapping_mul(factor)
}

// A number in which each bit hangs on all bits of this one.
fn mix(value: u64) -> u64
    ensures { result ≡ mixed value }
{
    let once = stir(value, 30, 0xbf58_476d_1ce4_e5b9);
    let twice = stir(once, 27, 0x94d0_49bb_1331_11eb);
    twice ^ (twice >> 31)
}

// Numbers drawn from one seed, one for each place.
#[derive(Clone, Copy)]
pub struct Chance {
    seed: u64,
}

impl Chance {
    pub fn new(seed: u64) -> Chance
        ensures { result.seed ≡ seed }
    {
        Chance { seed }
    }

    // The number of a place.
    fn draw(self, place: u64) -> u64
        ensures { result ≡ drawn self.seed place }
    {
        mix(self.seed.wrapping_add(place.wrapping_mul(STRIDE)))
    }

    // The numbers of what stands at a place and has places of its own, as a dwelling has months.
    pub fn at(self, place: u64) -> Chance
        ensures { result.seed ≡ drawn self.seed place }
    {
        Chance {
            seed: self.draw(place),
        }
    }

    // A number below the count, and 0 where the count is 0.
    pub fn below(self, place: u64, count: u64) -> u64
        ensures value { result ≡ drawn_below self.seed place count }
        ensures bound { 0 < count → result < count }
    {
        if count == 0 {
            return 0;
        }
        self.draw(place) % count
    }

    // One of these, whichever the place's number falls on.
    pub fn pick<T: Copy, const N: usize>(self, place: u64, from: &[T; N]) -> T
        requires { 0 < N }
        ensures { DrawnFrom self.seed place from.now result }
    {
        from[self.below(place, N as u64) as usize]
    }
}
