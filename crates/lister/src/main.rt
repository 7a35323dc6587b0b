// Reads a card from standard input, and prints its key and its segments, or why it is refused.
#![tactic(auto)]

use inputs::read_full;
use listing::cards::{listing_room, write_listing};
use std::io;
use std::io::Write;

fn main(rt: HostRuntime) -> io::Result<()> {
    let mut card = [0; 65_536];
    let got = read_full(&mut rt.stdin(), &mut card);
    let mut bytes = listing_room();
    let count = write_listing(&card[..got], &mut bytes);
    rt.stdout().write_all(&bytes[..count])
}
