// Keys, given by their numbers.
ghost use Rattle.std.specs.Prelude.{◌≡◌};
ghost use Rattle.keys.specs.Numbers.{key_at, key_number, same_key, are_relative_keys};

use keys::numbers::{are_relative_keys, key_from_index};

// The number of the key with this index.
#[unsafe(no_mangle)]
pub extern "C" fn probe_key_number(index: u32) -> u32
    ensures { result ≡ key_number (key_at index) }
{
    let key = key_from_index(index as usize);
    u8::from(key) as u32
}

#[unsafe(no_mangle)]
pub extern "C" fn probe_same_key(a: u32, b: u32) -> bool
    ensures { result ≡ same_key (key_at a) (key_at b) }
{
    let first = key_from_index(a as usize);
    let second = key_from_index(b as usize);
    first == second
}

#[unsafe(no_mangle)]
pub extern "C" fn probe_are_relative_keys(a: u32, b: u32) -> bool
    ensures { result ≡ are_relative_keys (key_at a) (key_at b) }
{
    let first = key_from_index(a as usize);
    let second = key_from_index(b as usize);
    are_relative_keys(first, second)
}
