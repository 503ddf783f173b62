// Plans that are permitted, and plans that are not.

// A dwelling and a period of it, and whether the plan of a code is permitted.
pub struct Asked {
    pub marks: u64,
    pub kinds: [u64; 6],
    pub day: [u64; 6],
    pub code: u64,
    pub permitted: bool,
}

pub const ASKED: [Asked; 27] = [
    // the normal tariff asks nothing, nor does that for 30 kVA
    Asked {
        marks: 0,
        kinds: [0; 6],
        day: [0; 6],
        code: 0,
        permitted: true,
    },
    Asked {
        marks: 0,
        kinds: [1, 0, 0, 0, 0, 0],
        day: [0; 6],
        code: 1_458,
        permitted: true,
    },
    // the two-rate tariff is for those who asked for it
    Asked {
        marks: 0,
        kinds: [1, 0, 0, 0, 0, 0],
        day: [0; 6],
        code: 729,
        permitted: false,
    },
    Asked {
        marks: 1,
        kinds: [1, 0, 0, 0, 0, 0],
        day: [0; 6],
        code: 729,
        permitted: true,
    },
    Asked {
        marks: 2,
        kinds: [1, 0, 0, 0, 0, 0],
        day: [0; 6],
        code: 2_187,
        permitted: false,
    },
    Asked {
        marks: 1,
        kinds: [1, 0, 0, 0, 0, 0],
        day: [0; 6],
        code: 2_187,
        permitted: true,
    },
    // the exclusive night meter is for night-reserved circuits that have no kWh by day
    Asked {
        marks: 0,
        kinds: [1, 2, 0, 0, 0, 0],
        day: [900, 0, 0, 0, 0, 0],
        code: 3,
        permitted: true,
    },
    Asked {
        marks: 0,
        kinds: [1, 2, 0, 0, 0, 0],
        day: [900, 1, 0, 0, 0, 0],
        code: 3,
        permitted: false,
    },
    Asked {
        marks: 0,
        kinds: [1, 3, 0, 0, 0, 0],
        day: [0; 6],
        code: 3,
        permitted: false,
    },
    Asked {
        marks: 0,
        kinds: [1, 1, 0, 0, 0, 0],
        day: [0; 6],
        code: 3,
        permitted: false,
    },
    Asked {
        marks: 0,
        kinds: [0, 0, 0, 0, 0, 2],
        day: [0; 6],
        code: 243,
        permitted: true,
    },
    Asked {
        marks: 0,
        kinds: [2, 0, 0, 0, 0, 0],
        day: [0; 6],
        code: 243,
        permitted: false,
    },
    // the peak-shed meter is for interruptible circuits, by day too
    Asked {
        marks: 0,
        kinds: [1, 3, 0, 0, 0, 0],
        day: [0, 900, 0, 0, 0, 0],
        code: 6,
        permitted: true,
    },
    Asked {
        marks: 0,
        kinds: [1, 2, 0, 0, 0, 0],
        day: [0; 6],
        code: 6,
        permitted: false,
    },
    Asked {
        marks: 0,
        kinds: [0, 0, 0, 0, 0, 3],
        day: [0; 6],
        code: 486,
        permitted: true,
    },
    // an extended base asks for both marks and a night-reserved circuit, and has no exclusive night meter beside it
    Asked {
        marks: 3,
        kinds: [1, 0, 0, 0, 0, 0],
        day: [0; 6],
        code: 2_916,
        permitted: false,
    },
    Asked {
        marks: 3,
        kinds: [1, 2, 0, 0, 0, 0],
        day: [0; 6],
        code: 2_916,
        permitted: true,
    },
    Asked {
        marks: 1,
        kinds: [1, 2, 0, 0, 0, 0],
        day: [0; 6],
        code: 2_916,
        permitted: false,
    },
    Asked {
        marks: 2,
        kinds: [1, 2, 0, 0, 0, 0],
        day: [0; 6],
        code: 3_645,
        permitted: false,
    },
    Asked {
        marks: 3,
        kinds: [1, 2, 0, 0, 0, 0],
        day: [0; 6],
        code: 2_919,
        permitted: false,
    },
    Asked {
        marks: 3,
        kinds: [2, 3, 0, 0, 0, 0],
        day: [0; 6],
        code: 2_922,
        permitted: true,
    },
    Asked {
        marks: 3,
        kinds: [0, 0, 0, 0, 0, 2],
        day: [0, 0, 0, 0, 0, 70],
        code: 3_645,
        permitted: true,
    },
    // there are 4,374 codes
    Asked {
        marks: 7,
        kinds: [3; 6],
        day: [0; 6],
        code: 2_186,
        permitted: true,
    },
    Asked {
        marks: 3,
        kinds: [2, 3, 3, 3, 3, 3],
        day: [0; 6],
        code: 4_371,
        permitted: true,
    },
    Asked {
        marks: 7,
        kinds: [3; 6],
        day: [0; 6],
        code: 4_373,
        permitted: false,
    },
    Asked {
        marks: 0,
        kinds: [0; 6],
        day: [0; 6],
        code: 4_374,
        permitted: false,
    },
    Asked {
        marks: 0,
        kinds: [0; 6],
        day: [0; 6],
        code: 18_446_744_073_709_551_615,
        permitted: false,
    },
];
