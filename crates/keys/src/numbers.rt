// Keys by number: the tonic for major, 12 + tonic for minor.
ghost use Rattle.std.specs.Prelude.{◌≡◌, ◌<◌};
ghost use Rattle.keys.specs.Numbers.{tonic_number, key_number, key_at, are_relative_keys};

use crate::{Key, Mode, Tonic};

// From 0 for C to 11 for B.
impl From<Tonic> for usize {
    fn from(tonic: Tonic) -> usize
        ensures number { result ≡ tonic_number tonic }
        ensures below { result < 12 }
    {
        tonic as usize
    }
}

// From 0 to 23.
impl From<Key> for u8 {
    fn from(key: Key) -> u8
        ensures { result ≡ key_number key }
    {
        let tonic = key.tonic as u8;
        match key.mode {
            Mode::Major => tonic,
            Mode::Minor => 12 + tonic,
        }
    }
}

// The key with a number below 24. Any other index is taken as the Rust takes it: minor, with its
// remainder by 12 as the tonic.
pub fn key_from_index(index: usize) -> Key
    ensures { result ≡ key_at index }
{
    Key {
        tonic: Tonic::ALL[index % 12],
        mode: if index < 12 { Mode::Major } else { Mode::Minor },
    }
}

// Whether one key is the other's relative: a minor key nine semitones above the major one.
pub fn are_relative_keys(a: Key, b: Key) -> bool
    ensures { result ≡ are_relative_keys a b }
{
    if a.mode == b.mode {
        return false;
    }
    let (major, minor) = if a.mode == Mode::Major {
        (a.tonic as u8, b.tonic as u8)
    } else {
        (b.tonic as u8, a.tonic as u8)
    };
    (major + 9) % 12 == minor
}
