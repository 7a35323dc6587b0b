// Four resonators side by side, one row's each.
ghost use Rattle.std.specs.Prelude.{◌≡◌, ◌+◌, ◌≤◌, length};
ghost use Rattle.filters.specs.Four.{same_for_four, rest_of_four, stepped_four, put_four};

use crate::resonator::{Delay, at_rest, step};

// One value for each of four rows.
#[derive(Clone, Copy)]
pub struct Four<T> {
    pub a: T,
    pub b: T,
    pub c: T,
    pub d: T,
}

impl<T: Copy> Four<T> {
    // What f makes of each.
    pub fn map<U, F: Fn(T) -> U>(self, f: F) -> Four<U>
        requires { F.pre f self.a × F.pre f self.b × F.pre f self.c × F.pre f self.d }
        ensures { F.post f self.a result.a × F.post f self.b result.b × F.post f self.c result.c × F.post f self.d result.d }
    {
        Four {
            a: f(self.a),
            b: f(self.b),
            c: f(self.c),
            d: f(self.d),
        }
    }

    // What f makes of each with its other.
    pub fn with<S: Copy, U, F: Fn(T, S) -> U>(self, other: Four<S>, f: F) -> Four<U>
        requires { F.pre f self.a other.a × F.pre f self.b other.b × F.pre f self.c other.c × F.pre f self.d other.d }
        ensures { F.post f self.a other.a result.a × F.post f self.b other.b result.b × F.post f self.c other.c result.c × F.post f self.d other.d result.d }
    {
        Four {
            a: f(self.a, other.a),
            b: f(self.b, other.b),
            c: f(self.c, other.c),
            d: f(self.d, other.d),
        }
    }
}

// The same value for each.
pub fn same_for_four<T: Copy>(value: T) -> Four<T>
    ensures { result ≡ same_for_four value }
{
    Four {
        a: value,
        b: value,
        c: value,
        d: value,
    }
}

// Before the first value.
pub fn four_at_rest() -> Four<Delay>
    ensures { result ≡ rest_of_four }
{
    same_for_four(at_rest())
}

// One value more for each.
pub fn step_four(delays: Four<Delay>, coefficients: Four<f32>, x: Four<f32>) -> Four<Delay>
    ensures { result ≡ stepped_four coefficients x delays }
{
    Four {
        a: step(delays.a, coefficients.a, x.a),
        b: step(delays.b, coefficients.b, x.b),
        c: step(delays.c, coefficients.c, x.c),
        d: step(delays.d, coefficients.d, x.d),
    }
}

// Four numbers go into their places, from k on.
pub fn put_four(values: Four<f32>, k: usize, room: &mut [f32])
    requires { k + 4 ≤ length room.old }
    ensures { room.new ≡ put_four values k room.old }
{
    room[k] = values.a;
    room[k + 1] = values.b;
    room[k + 2] = values.c;
    room[k + 3] = values.d;
}
