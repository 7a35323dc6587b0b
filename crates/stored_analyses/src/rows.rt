// Whether lists are those that are stored.
ghost use Rattle.std.specs.Prelude.{◌≡◌, ℕ, ◌+◌, ◌*◌, ◌≤◌, Bool, List, [], eqb, length};
ghost use Rattle.std.specs.Float.{nan, binary64};
ghost use Rattle.std.specs.Float.Ieee.{to_bits};
ghost use Rattle.replayed.specs.Records.{word_at, value_at, same_value};
ghost use Rattle.stored_analyses.specs.Rows.{same_entries, same_chroma, same_time};

use replayed::{same_value, value_at, word_at};

// A kind of entry that records hold.
pub trait Stored {
    // How many bytes an entry takes.
    ghost SIZE: { ℕ };

    // Whether an entry is the one that is stored from a byte on.
    ghost same: { List ℕ → ℕ → Self → Bool };

    // An entry that is read nowhere.
    ghost blank: { Self };

    const SIZE: usize;

    fn agrees(&self, bytes: &[u8], at: usize) -> bool
        requires { at + SIZE ≤ length bytes.now }
        ensures { result ≡ same bytes.now at self.now };
}

// Whether these are the entries from `at` on.
pub fn entries_agree<T: Stored>(bytes: &[u8], at: usize, entries: &[T]) -> bool
    requires { at + T.SIZE * length entries.now ≤ length bytes.now }
    ensures { result ≡ same_entries T.same T.SIZE T.blank bytes.now at entries.now }
{
    let mut same = true;
    let mut place = at;
    for entry in entries {
        same &= entry.agrees(bytes, place);
        place += T::SIZE;
    }
    same
}

// The pattern of a value; every NaN has the same.
fn pattern(x: f64) -> u64
    ensures { result ≡ to_bits binary64 x }
{
    if x.is_nan() {
        return 0x7ff8_0000_0000_0000;
    }
    f64::to_bits(x)
}

// A time takes two numbers, the lower half of its pattern first.
impl Stored for f64 {
    ghost SIZE = { 8 };

    ghost same = { same_time };

    ghost blank = { nan };

    const SIZE: usize = 8;

    fn agrees(&self, bytes: &[u8], at: usize) -> bool {
        let low = u64::from(word_at(bytes, at));
        let high = u64::from(word_at(bytes, at + 4));
        pattern(*self) == low + high * 0x1_0000_0000
    }
}

impl Stored for f32 {
    ghost SIZE = { 4 };

    ghost same = { λ bytes at x. same_value x (value_at bytes at) };

    ghost blank = { nan };

    const SIZE: usize = 4;

    fn agrees(&self, bytes: &[u8], at: usize) -> bool {
        same_value(*self, value_at(bytes, at))
    }
}

impl Stored for u8 {
    ghost SIZE = { 4 };

    ghost same = { λ bytes at n. eqb n (word_at bytes at) };

    ghost blank = { 0 };

    const SIZE: usize = 4;

    fn agrees(&self, bytes: &[u8], at: usize) -> bool {
        u32::from(*self) == word_at(bytes, at)
    }
}

impl Stored for u32 {
    ghost SIZE = { 4 };

    ghost same = { λ bytes at n. eqb n (word_at bytes at) };

    ghost blank = { 0 };

    const SIZE: usize = 4;

    fn agrees(&self, bytes: &[u8], at: usize) -> bool {
        *self == word_at(bytes, at)
    }
}

impl Stored for u64 {
    ghost SIZE = { 4 };

    ghost same = { λ bytes at n. eqb n (word_at bytes at) };

    ghost blank = { 0 };

    const SIZE: usize = 4;

    fn agrees(&self, bytes: &[u8], at: usize) -> bool {
        *self == u64::from(word_at(bytes, at))
    }
}

// A chroma is twelve values.
impl Stored for [f32; 12] {
    ghost SIZE = { 48 };

    ghost same = { same_chroma };

    ghost blank = { [] };

    const SIZE: usize = 48;

    fn agrees(&self, bytes: &[u8], at: usize) -> bool {
        entries_agree(bytes, at, self)
    }
}
