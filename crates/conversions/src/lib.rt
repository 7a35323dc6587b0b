// Between f32 and f64: widening is exact, narrowing rounds once.
#![tactic(auto)]

ghost use Rattle.std.specs.Prelude.{◌≡◌, ◌^◌, ◌<◌, ◌≤◌, from_bits, to_bits};
ghost use Rattle.std.specs.Float.{binary32, binary64};
ghost use Rattle.std.specs.Float.Ieee.Nearest.{closest};
ghost use Rattle.laws.specs.Convert.{converted};

// x at the wider format, which holds every f32.
pub fn widen(x: f32) -> f64
    ensures { result ≡ x }
{
    std::num::f32_to_f64_with_nan(x)
}

// digits / 2^shift to the nearest whole number, a tie to the even one.
fn nearest_quotient(digits: u64, shift: u64) -> u64
    requires { (digits < 2 ^ 53) × (shift < 63) }
    ensures { result ≡ closest digits (2 ^ shift) }
{
    let unit = 1u64 << shift;
    let whole = digits / unit;
    let twice = digits % unit * 2;
    if twice < unit {
        return whole;
    }
    if unit < twice {
        return whole + 1;
    }
    whole + whole % 2
}

// From the pattern of an f64 with the plus sign, up to the infinity's, to that of the nearest f32.
// The exponent's field counts from 2^-1074 in an f64 and from 2^-149 in an f32.
fn narrow_pattern(bits: u64) -> u64
    requires { bits ≤ 0x7ff0_0000_0000_0000 }
    ensures { result ≡ to_bits binary32 (converted binary32 (from_bits binary64 bits)) }
{
    let field = bits / 0x10_0000_0000_0000;
    let digits = 0x10_0000_0000_0000 + bits % 0x10_0000_0000_0000;
    // less than half of 2^-149
    if field < 873 {
        return 0;
    }
    // subnormal in an f32
    if field < 897 {
        return nearest_quotient(digits, 926 - field);
    }
    // a carry out of the digits adds one to the field, and at the highest field gives the infinity
    if field < 1151 {
        return (field - 897) * 0x80_0000 + nearest_quotient(digits, 29);
    }
    0x7f80_0000
}

// IEEE 754 convertFormat, to nearest, a tie to even: Rust's `x as f32`.
pub fn narrow(x: f64) -> f32
    ensures { result ≡ converted binary32 x }
{
    if x.is_nan() {
        return 0.0 / 0.0;
    }
    let bits = f64::to_bits(x);
    if bits < 0x8000_0000_0000_0000 {
        f32::from_bits(narrow_pattern(bits) as u32)
    } else {
        -f32::from_bits(narrow_pattern(bits - 0x8000_0000_0000_0000) as u32)
    }
}
