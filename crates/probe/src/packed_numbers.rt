// Numbers as a card packs them.
ghost use Rattle.std.specs.Prelude.{◌≡◌};
ghost use Rattle.packed.specs.Packing.{thousandths_of, milliseconds_of};
ghost use Rattle.probe.specs.Packed.{number_of};

use packed::{milliseconds, thousandths};

// A packed number; the largest number of 64 bits for none.
fn number_of(packed: Option<u64>) -> u64
    ensures { result ≡ number_of packed }
{
    packed.unwrap_or(u64::MAX)
}

#[unsafe(no_mangle)]
pub extern "C" fn probe_thousandths(x: f32) -> u64
    ensures { result ≡ number_of (thousandths_of x) }
{
    number_of(thousandths(x))
}

// Up to a day.
#[unsafe(no_mangle)]
pub extern "C" fn probe_milliseconds(x: f64) -> u64
    ensures { result ≡ number_of (milliseconds_of x 86400000) }
{
    number_of(milliseconds(x, 86400000))
}
