// Shortens the segments of rows c to g of the request's table in a slice of records, and prints what is left.
#![tactic(auto)]

ghost use Rattle.std.specs.Prelude.{◌≡◌, ◌^◌, ◌<◌};
ghost use Rattle.timeline.specs.Segments.{segment};
ghost use Rattle.laws.specs.Values.{plus_zero};
ghost use Rattle.keys.specs.Numbers.{key_at};
ghost use Rattle.joining.specs.Threes.{three, windows_of_three, shortened_three};

use numbers::counts::fewer;
use packed::milliseconds;
use records::{record_at, shorten_records};
use std::io;
use timeline::segment::Segment;
use timeline::stored::stored_key;

// Three records, of which so many hold segments.
#[derive(Clone, Copy)]
pub struct Three {
    pub count: usize,
    pub first: Segment,
    pub second: Segment,
    pub third: Segment,
}

// The same, from its parts.
fn three_of(count: usize, first: Segment, second: Segment, third: Segment) -> Three
    ensures { result ≡ three count first second third }
{
    Three {
        count,
        first,
        second,
        third,
    }
}

// Shortens the first `count` of three records, in a slice that it lends.
fn shorten_three(least: f64, count: usize, first: Segment, second: Segment, third: Segment) -> Three
    requires { windows_of_three first second third < 2 ^ 32 }
    ensures { result ≡ shortened_three least (three count first second third) }
{
    let mut records = [first, second, third];
    let held = fewer(count, 3);
    let left = shorten_records(&mut records, least, held);
    let one = record_at(&records, 0);
    let two = record_at(&records, 1);
    let last = record_at(&records, 2);
    three_of(left, one, two, last)
}

// [start, end) key, of confidence 0, from so many windows.
fn part(start: f64, end: f64, number: u8, windows: u32) -> Segment
    ensures { result ≡ segment start end (key_at number) plus_zero windows }
{
    let key = stored_key(number);
    Segment {
        start,
        end,
        key,
        confidence: 0.0,
        windows,
    }
}

// Prints a time in milliseconds.
fn print_time(rt: &impl Print, time: f64) -> io::Result<()> {
    let number = milliseconds(time, 86400000).unwrap_or(86400001);
    print!(rt; "{number}")
}

// Prints a segment: from when to when, its key's number, and how many windows it rests on.
fn print_segment(rt: &impl Print, segment: Segment) -> io::Result<()> {
    let number = u8::from(segment.key);
    let windows = segment.windows;
    print!(rt; " [")?;
    print_time(rt, segment.start)?;
    print!(rt; ", ")?;
    print_time(rt, segment.end)?;
    print!(rt; ") {number} from {windows}")
}

// Prints a row: how many segments are left, and all three records.
fn print_row(
    rt: &impl Print,
    letter: &[u8],
    count: usize,
    first: Segment,
    second: Segment,
    third: Segment,
) -> io::Result<()>
    requires { windows_of_three first second third < 2 ^ 32 }
{
    let left = shorten_three(12.0, count, first, second, third);
    let many = left.count;
    rt.write_all(letter)?;
    print!(rt; ": {many} left:")?;
    print_segment(rt, left.first)?;
    print_segment(rt, left.second)?;
    print_segment(rt, left.third)?;
    println!(rt; "")
}

// Prints a row of three segments that end at these times, from 1, 2 and 4 windows.
fn print_three(
    rt: &impl Print,
    letter: &[u8],
    first: f64,
    second: f64,
    third: f64,
) -> io::Result<()> {
    print_row(
        rt,
        letter,
        3,
        part(0.0, first, 0, 1),
        part(first, second, 7, 2),
        part(second, third, 9, 4),
    )
}

// Prints a row of two such segments, with an emptied record behind them.
fn print_two(rt: &impl Print, letter: &[u8], first: f64, second: f64) -> io::Result<()> {
    print_row(
        rt,
        letter,
        2,
        part(0.0, first, 0, 1),
        part(first, second, 7, 2),
        Segment::emptied(),
    )
}

fn main(rt: HostRuntime) -> io::Result<()> {
    print_three(&rt, b"c", 10.0, 40.0, 70.0)?;
    print_three(&rt, b"d", 30.0, 40.0, 70.0)?;
    print_three(&rt, b"e", 20.0, 30.0, 70.0)?;
    print_two(&rt, b"f", 30.0, 40.0)?;
    print_two(&rt, b"g", 12.0, 24.0)
}
