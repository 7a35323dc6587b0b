// Replays stored answers of the Rust for whole analyses. A file is a sheet and records behind it, all of numbers of
// 32 bits, each with its lowest byte first. The sheet: the four numbers of its head, a window of 32 values, 14
// coefficients and 14 weights of Goertzel rows, 14 lengths and 14 coefficients of constant-Q rows, 820 values of
// their windows. A record: the ten numbers of the settings, 384 samples, the answer and all that is left in the rows.
#![tactic(auto)]

pub mod analyses;
