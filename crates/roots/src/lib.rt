// The square root of an f32, correctly rounded (IEEE 754, to nearest, ties to even), by integer
// arithmetic on its bit pattern. A positive finite x is s * 2 ^ (e - 275) with a significand s of 24
// binary digits. With n = s * 2 ^ 23, or twice that where e is odd, √x is √n times a power of two.
// So the 24 digits of the result are the whole number nearest to √n.
#![tactic(auto)]

ghost use Rattle.std.specs.Prelude.{◌≡◌, ◌+◌, ◌*◌, ◌<◌};
ghost use Rattle.roots.specs.Root.{root_of};
ghost use Rattle.roots.specs.inside.Steps.{Scaled, Guess, Floor, Nearest, Parts, Evened, RootOfParts, RootOfBits};

// A straight line on each half of the range, close to √n: measured within 1 %. No proof leans on how close.
fn first_guess(n: u64) -> u64
    requires { Scaled n }
    ensures { Guess result }
{
    if n < 0x8000_0000_0000 {
        n / 0x4000_0000 * 53 + 4990000
    } else {
        n / 0x8000_0000 * 75 + 7056000
    }
}

// Heron's step: the mean of q and n / q, with about twice as many digits right as q, and never below
// the whole part of √n.
fn closer(n: u64, q: u64) -> u64
    requires { Scaled n × Guess q }
    ensures { Guess result × (n < (result + 1) * (result + 1)) }
{
    (q + n / q) / 2
}

// The whole part of √n. After two steps that is q, or rarely q - 1.
fn whole_root(n: u64) -> u64
    requires { Scaled n }
    ensures { Floor n result }
{
    let mut q = closer(n, closer(n, first_guess(n)));
    while n < q * q {
        q -= 1;
    }
    q
}

// The whole number nearest to √n, which is never halfway between two.
fn nearest_root(n: u64) -> u64
    requires { Scaled n }
    ensures { Nearest n result }
{
    let q = whole_root(n);
    if q < n - q * q { q + 1 } else { q }
}

// The significand scaled by a power of two that leaves an even exponent.
fn evened(s: u64, e: u32) -> u64
    requires { Parts s e }
    ensures { Evened s e result }
{
    if e % 2 == 0 {
        s * 0x80_0000
    } else {
        s * 0x100_0000
    }
}

// The bit pattern of the root of s * 2 ^ (e - 275). The significand's leading digit adds one to the
// exponent's field.
fn root_of_parts(s: u64, e: u32) -> u32
    requires { Parts s e }
    ensures { RootOfParts s e result }
{
    e / 2 * 0x80_0000 + nearest_root(evened(s, e)) as u32
}

// The bit pattern of the root of the positive finite value with the pattern b.
fn root_of_bits(b: u32) -> u32
    requires { (0 < b) × (b < 0x7f80_0000) }
    ensures { RootOfBits b result }
{
    if b < 0x80_0000 {
        // subnormal: shift the leading digit to its place
        let z = u32::leading_zeros(b) - 8;
        root_of_parts((b << z) as u64, 126 - z)
    } else {
        root_of_parts((b % 0x80_0000 + 0x80_0000) as u64, b / 0x80_0000 + 125)
    }
}

// The square root of x. A NaN, a zero and +infinity are their own root. Anything else below zero has none.
pub fn square_root(x: f32) -> f32
    ensures { result ≡ root_of x }
{
    if x.is_nan() {
        return x;
    }
    let b = f32::to_bits(x);
    if b == 0x7f80_0000 {
        return x;
    }
    if b % 0x8000_0000 == 0 {
        return x;
    }
    if b > 0x8000_0000 {
        return 0.0 / 0.0;
    }
    f32::from_bits(root_of_bits(b))
}
