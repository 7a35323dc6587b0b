// Replays the stored answers of the Rust, for scores and keys and for whole analyses, and prints what it found.
#![tactic(auto)]

ghost use Rattle.std.specs.Prelude.{◌≡◌, ◌≤◌, length, take};

use inputs::read_full;
use replayed::count_differing;
use replayed_analyses::analyses::{count_analyses, count_differing_analyses};
use std::rt::Files;
use std::{fs, io};

// Reads a file to the front of the buffer, and tells how many bytes there are: none where it can't be opened.
fn read_sample(rt: &(impl Files + Eprint), path: &str, buffer: &mut [u8]) -> usize
    ensures { (result ≤ length buffer.new) × (result ≡ length (take result buffer.new)) }
{
    match fs::open(rt, path) {
        Ok(mut file) => read_full(&mut file, buffer),
        Err(error) => {
            let _ = eprintln!(rt; "{path}: {error}");
            0
        }
    }
}

// Prints how many there are and how many differ.
fn print_found(
    rt: &impl Print,
    count: usize,
    what: &str,
    differ: usize,
    parts: &str,
) -> io::Result<()> {
    println!(rt; "{count} {what}, {differ} differ in {parts}")
}

// Scores and keys of chromas.
fn replay_scores(rt: &(impl Files + Print + Eprint)) -> io::Result<()> {
    let mut buffer = [0; 65_536];
    let got = read_sample(rt, "scores.sample", &mut buffer);
    let count = got / 164;
    let differ = count_differing(&buffer[..got], count);
    print_found(rt, count, "chromas", differ, "scores or key")
}

// Whole analyses of small tracks.
fn replay_analyses(rt: &(impl Files + Print + Eprint)) -> io::Result<()> {
    let mut buffer = [0; 65_536];
    let got = read_sample(rt, "analyses.sample", &mut buffer);
    let count = count_analyses(&buffer[..got]);
    let differ = count_differing_analyses(&buffer[..got]);
    print_found(
        rt,
        count,
        "analyses",
        differ,
        "the answer, frames, estimates or segments",
    )
}

fn main(rt: HostRuntime) -> io::Result<()> {
    replay_scores(&rt)?;
    replay_analyses(&rt)
}
