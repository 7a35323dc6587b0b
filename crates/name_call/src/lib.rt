// The call "write a key name", whole.
#![tactic(auto)]

ghost use Rattle.std.specs.Prelude.{◌≡◌};
ghost use Rattle.name_call.specs.KeyNames.{key_name_of};
ghost use Rattle.written.specs.Outcome.{bytes_outcome};

use key_names::{name_length, write_name};
use keys::numbers::key_from_index;
use written::{Written, refused};

// Writes the name of the key with this number from the front of `bytes`. Refusals: 11 a number above
// 23, 12 too few bytes.
pub fn write_key_name(number: u32, bytes: &mut [u8]) -> Written
    ensures { bytes_outcome result bytes.new ≡ key_name_of number bytes.old }
{
    if number > 23 {
        return refused(11);
    }
    let key = key_from_index(number as usize);
    if bytes.len() < name_length(key) {
        return refused(12);
    }
    Written {
        refusal: 0,
        length: write_name(key, bytes),
    }
}
