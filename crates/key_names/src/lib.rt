// A key's name, as the Rust's Display writes it: the tonic, a blank and the mode.
#![tactic(auto)]

ghost use Rattle.std.specs.Prelude.{◌≡◌, ◌≤◌, length, get_or};
ghost use Rattle.laws.specs.Front.{front};
ghost use Rattle.key_names.specs.Names.{tonic_name, mode_name, name_of, padded};

use keys::{Key, Mode, Tonic};

// A tonic's name, with a blank behind it where it is one letter.
fn tonic_letters(tonic: Tonic) -> [u8; 2]
    ensures { result ≡ padded (tonic_name tonic) }
{
    match tonic {
        Tonic::C => *b"C ",
        Tonic::CSharp => *b"C#",
        Tonic::D => *b"D ",
        Tonic::DSharp => *b"D#",
        Tonic::E => *b"E ",
        Tonic::F => *b"F ",
        Tonic::FSharp => *b"F#",
        Tonic::G => *b"G ",
        Tonic::GSharp => *b"G#",
        Tonic::A => *b"A ",
        Tonic::ASharp => *b"A#",
        Tonic::B => *b"B ",
    }
}

fn mode_letters(mode: Mode) -> [u8; 5]
    ensures { result ≡ mode_name mode }
{
    match mode {
        Mode::Major => *b"major",
        Mode::Minor => *b"minor",
    }
}

// How many letters a tonic's name has: two where it is sharp.
fn tonic_length(tonic: Tonic) -> usize
    ensures { result ≡ length (tonic_name tonic) }
{
    let letters = tonic_letters(tonic);
    if letters[1] == b'#' { 2 } else { 1 }
}

// How many bytes a key's name has.
pub fn name_length(key: Key) -> usize
    ensures { result ≡ length (name_of key) }
{
    tonic_length(key.tonic) + 6
}

// Byte i of a key's name, and 0 behind its end.
fn name_byte(key: Key, i: usize) -> u8
    ensures { result ≡ get_or (name_of key) i 0 }
{
    let letters = tonic_letters(key.tonic);
    let word = mode_letters(key.mode);
    let blank = tonic_length(key.tonic);
    if i < blank {
        return letters[i];
    }
    if i == blank {
        return b' ';
    }
    let j = i - blank - 1;
    if j < 5 { word[j] } else { 0 }
}

// Writes a key's name from the front of `bytes`, and returns its length.
pub fn write_name(key: Key, bytes: &mut [u8]) -> usize
    requires { length (name_of key) ≤ length bytes.old }
    ensures { (result ≡ length (name_of key)) × (bytes.new ≡ front (name_of key) bytes.old) }
{
    let count = name_length(key);
    for i in 0..count {
        bytes[i] = name_byte(key, i);
    }
    count
}
