// The eight key profiles, four pairs of major and minor, and what depends on them alone.
ghost use Rattle.std.specs.Prelude.{◌≡◌, ◌<◌};
ghost use Rattle.correlations.specs.Correlation.{mean_of};
ghost use Rattle.scores.specs.Profiles.{profile_at};

// Each a weight for the twelve pitch classes from the tonic up. Row 2 * p + mode is profile p's, 0 for
// major and 1 for minor.
const PROFILES: [[f32; 12]; 8] = [
    // Krumhansl major
    [
        6.35, 2.23, 3.48, 2.33, 4.38, 4.09, 2.52, 5.19, 2.39, 3.66, 2.29, 2.88,
    ],
    // Krumhansl minor
    [
        6.33, 2.68, 3.52, 5.38, 2.60, 3.53, 2.54, 4.75, 3.98, 2.69, 3.34, 3.17,
    ],
    // Temperley major
    [
        5.00, 2.00, 3.50, 2.00, 4.50, 4.00, 2.00, 4.50, 2.00, 3.50, 1.50, 4.00,
    ],
    // Temperley minor
    [
        5.00, 2.00, 3.50, 4.50, 2.00, 4.00, 2.00, 4.50, 3.50, 2.00, 1.50, 4.00,
    ],
    // EDMA major
    [
        6.80, 3.00, 4.20, 2.80, 5.60, 4.40, 2.60, 5.80, 3.20, 4.40, 2.40, 3.80,
    ],
    // EDMA minor
    [
        6.60, 3.20, 4.00, 5.40, 3.00, 4.20, 2.80, 5.20, 4.40, 3.00, 3.60, 3.60,
    ],
    // learned major
    [
        0.0972, 0.0776, 0.0833, 0.0754, 0.0850, 0.0818, 0.0749, 0.0922, 0.0743, 0.0804, 0.0766,
        0.0831,
    ],
    // learned minor
    [
        0.0972, 0.0815, 0.0815, 0.0825, 0.0745, 0.0798, 0.0754, 0.0917, 0.0808, 0.0769, 0.0830,
        0.0819,
    ],
];

// The mean of each profile.
const MEANS: [f32; 8] = [
    3.4825003,
    3.7091668,
    3.2083333,
    3.2083333,
    4.0833335,
    4.0833335,
    0.081816666,
    0.082225,
];

// The energies of the profiles: the sums of their squared deviations. Such a sum starts at another
// value for each root, so that its last bits may differ: a profile has one energy, two or three.
pub const ENERGIES: [f32; 17] = [
    // Krumhansl major
    19.146223,
    19.146225,
    19.146227,
    // Krumhansl minor
    16.007092,
    // Temperley, both
    16.729166,
    16.729168,
    // EDMA major
    21.556665,
    21.556667,
    21.55667,
    // EDMA minor
    14.676666,
    14.676667,
    14.676668,
    // learned major
    0.00055095664,
    0.0005509567,
    // learned minor
    0.00045838242,
    0.00045838245,
    0.00045838248,
];

// Which of them is a profile's at each of the twelve roots from C up.
pub const ENERGY_AT: [[u8; 12]; 8] = [
    [0, 0, 1, 1, 2, 2, 1, 0, 0, 0, 1, 1],
    [3, 3, 3, 3, 3, 3, 3, 3, 3, 3, 3, 3],
    [4, 5, 5, 5, 5, 5, 5, 5, 5, 5, 5, 5],
    [4, 5, 5, 5, 5, 5, 4, 5, 5, 5, 5, 5],
    [6, 6, 7, 8, 8, 8, 7, 7, 7, 7, 7, 7],
    [9, 10, 10, 10, 10, 10, 10, 10, 11, 10, 10, 9],
    [12, 12, 12, 13, 12, 12, 13, 12, 13, 12, 12, 12],
    [16, 15, 16, 14, 14, 14, 14, 15, 14, 15, 16, 16],
];

// The profile in a row of the table.
pub fn profile_at(row: usize) -> [f32; 12]
    requires { row < 8 }
    ensures { result ≡ profile_at row }
{
    PROFILES[row]
}

// Its mean.
pub fn mean_at(row: usize) -> f32
    requires { row < 8 }
    ensures { result ≡ mean_of (profile_at row) }
{
    MEANS[row]
}
