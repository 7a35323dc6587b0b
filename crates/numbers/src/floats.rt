// What f32 and f64 share: kinds and signs, the total order, the larger and the smaller of two.
ghost use Rattle.std.specs.Prelude.{◌≡◌, ℕ, T, leb, Float};
ghost use Rattle.std.specs.Float.{Format};
ghost use Rattle.std.specs.Float.Ieee.{is_nan, lt, eq, fits};
ghost use Rattle.std.specs.Float.Ieee.Scale.{finite};
ghost use Rattle.std.specs.Ordering.{partial_lt, partial_le};
ghost use Rattle.laws.specs.Values.{negative};
ghost use Rattle.laws.specs.Order.{total_order, order_key};
ghost use Rattle.laws.specs.Pick.{maximum_number, minimum_number};

// A type of floats, of a format of IEEE 754.
pub trait Floating: Copy + PartialOrd {
    type Key: Copy + PartialOrd;

    ghost format: { Format };

    ghost value: { Self → Float };

    ghost key_number: { Self.Key → ℕ };

    // Whether it is neither a NaN nor an infinity.
    fn is_finite(self) -> bool
        ensures { result ≡ finite (value self) };

    // Whether it has the minus sign, as -0 has.
    fn is_negative(self) -> bool
        ensures { result ≡ negative (value self) };

    // Whether it is less than another, by the format's own comparison.
    fn is_below(self, other: Self) -> bool
        ensures { result ≡ lt (value self) (value other) };

    // A number whose order is the total order's.
    fn order_key(self) -> Self::Key
        ensures key { key_number result ≡ order_key format (value self) }
        ensures held { T (fits format (value self)) };

    ghost equal: { (a b : Self) → Self.PartialEq.eq a b ≡ eq (value a) (value b) };

    ghost less: { (a b : Self) → partial_lt Self.PartialOrd.partial_cmp a b ≡ lt (value a) (value b) };

    ghost keys_at_most: { (a b : Self.Key) → partial_le Self.Key.PartialOrd.partial_cmp a b ≡ leb (key_number a) (key_number b) };
}

// Whether x is a NaN: a NaN, and nothing else, differs from itself.
fn is_nan<F: Floating>(x: F) -> bool
    ensures { result ≡ is_nan (F.value x) }
{
    x != x
}

// Whether x is neither a NaN nor an infinity.
pub fn is_finite<F: Floating>(x: F) -> bool
    ensures { result ≡ finite (F.value x) }
{
    x.is_finite()
}

// IEEE 754 totalOrder, a at or before b: -inf .. -0, +0 .. inf, NaN.
pub fn total_before<F: Floating>(a: F, b: F) -> bool
    ensures { result ≡ total_order (F.value a) (F.value b) }
{
    a.order_key() <= b.order_key()
}

// IEEE 754 maximumNumber.
pub fn larger<F: Floating>(a: F, b: F) -> F
    ensures { F.value result ≡ maximum_number (F.value a) (F.value b) }
{
    if is_nan(a) | a.is_below(b) | ((a == b) & a.is_negative()) {
        b
    } else {
        a
    }
}

// IEEE 754 minimumNumber.
pub fn smaller<F: Floating>(a: F, b: F) -> F
    ensures { F.value result ≡ minimum_number (F.value a) (F.value b) }
{
    if is_nan(a) | b.is_below(a) | ((a == b) & b.is_negative()) {
        b
    } else {
        a
    }
}
