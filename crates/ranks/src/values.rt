// The value with an order key.
ghost use Rattle.std.specs.Prelude.{◌≡◌};
ghost use Rattle.std.specs.Float.{binary32};
ghost use Rattle.ranks.specs.inside.Search.{pattern_of_key, value_of_key};

use numbers::single::from_pattern;

// The pattern of the value with an order key.
fn pattern_of_key(key: u32) -> u32
    ensures { result ≡ pattern_of_key binary32 key }
{
    if key < 0x8000_0000 {
        0xffff_ffff - key
    } else {
        key - 0x8000_0000
    }
}

// The value with an order key.
pub fn value_of_key(key: u32) -> f32
    ensures { result ≡ value_of_key binary32 key }
{
    from_pattern(pattern_of_key(key))
}
