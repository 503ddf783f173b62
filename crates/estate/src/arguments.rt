// What the program is asked for.
use anyhow::bail;
use std::env;

// How large an estate is run and for how long, from which seed its lots are drawn, and whether its calls are printed as a script.
#[derive(Clone, Copy)]
pub struct Asked {
    pub dwellings: u64,
    pub years: u64,
    pub seed: u64,
    pub script: bool,
}

const USAGE: &str =
    "usage: estate [DWELLINGS [YEARS [SEED]]] [--script], 1 to 4096 dwellings and 1 to 100 years";

// What is asked for where no argument says otherwise.
const DEFAULT: Asked = Asked {
    dwellings: 24,
    years: 10,
    seed: 1,
    script: false,
};

fn is_within(asked: &Asked) -> bool {
    (1..=4_096).contains(&asked.dwellings) && (1..=100).contains(&asked.years)
}

// Reads the arguments, or says how they are to be.
pub fn read(rt: &HostRuntime) -> anyhow::Result<Asked> {
    let mut script = false;
    let mut numbers = [DEFAULT.dwellings, DEFAULT.years, DEFAULT.seed];
    let mut places = numbers.iter_mut();
    for word in env::args(rt)?.skip(1) {
        if word.as_str() == "--script" {
            script = true;
        } else if let Ok(number) = word.as_str().parse::<u64>() {
            let Some(place) = places.next() else {
                bail!("{USAGE}");
            };
            *place = number;
        } else {
            bail!("{USAGE}");
        }
    }
    let [dwellings, years, seed] = numbers;
    let asked = Asked {
        dwellings,
        years,
        seed,
        script,
    };
    if !is_within(&asked) {
        bail!("{USAGE}");
    }
    Ok(asked)
}
