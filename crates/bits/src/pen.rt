// A pen that puts numbers of few bits into lent bytes, most significant bit first.
ghost use Rattle.bits.specs.Bits.{bits_of};
ghost use Rattle.bits.specs.inside.Pens.{CanPut, BitsPut};

use crate::masks::{joined, low_bits};

// Where a pen stands: `at` whole bytes are written, and `count` bits, below 8, wait as a number.
#[derive(Clone, Copy)]
pub struct Pen {
    pub at: usize,
    pub count: usize,
    pub waiting: u64,
}

// Puts the `width` bits of `number` behind what the pen has put.
pub fn put_bits(bytes: &mut [u8], pen: Pen, width: usize, number: u64) -> Pen
    requires { CanPut bytes.old pen width number }
    ensures { BitsPut bytes.old bytes.new pen result (bits_of width number) }
{
    let mut at = pen.at;
    let mut count = pen.count + width;
    let mut waiting = joined(pen.waiting, width, number);
    while count >= 8 {
        count -= 8;
        bytes[at] = (waiting >> count) as u8;
        waiting = low_bits(waiting, count);
        at += 1;
    }
    Pen { at, count, waiting }
}
