// Keys as rows hold them: by number, in a byte.
ghost use Rattle.std.specs.Prelude.{◌≡◌};
ghost use Rattle.keys.specs.Numbers.{key_at};

use keys::Key;
use keys::numbers::key_from_index;

// The key that a row holds.
pub fn stored_key(number: u8) -> Key
    ensures { result ≡ key_at number }
{
    key_from_index(number as usize)
}
