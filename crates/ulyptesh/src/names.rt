// The call "write a key name".
ghost use Rattle.std.specs.Prelude.{◌≡◌};
ghost use Rattle.written.specs.Outcome.{bytes_outcome};
ghost use Rattle.name_call.specs.KeyNames.{key_name_of};

use name_call::write_key_name;
use written::Written;

// Writes the name of the key with this number from the front of `bytes`. Refusals: 11 a number above
// 23, 12 too few bytes.
#[unsafe(no_mangle)]
pub extern "C" fn ulyptesh_write_key_name(number: u32, bytes: &mut [u8]) -> Written
    ensures { bytes_outcome result bytes.new ≡ key_name_of number bytes.old }
{
    write_key_name(number, bytes)
}
