// The sums of products of four correlations side by side, so that no sum waits for another.
ghost use Rattle.std.specs.Prelude.{◌≡◌, ◌≤◌};
ghost use Rattle.correlations.specs.inside.Lanes.{alike, four_at, added_four, lanes_of};

// One value for each of four roots upward.
#[derive(Clone, Copy)]
pub struct Four {
    pub first: f32,
    pub second: f32,
    pub third: f32,
    pub fourth: f32,
}

// The same value for all four.
fn same_for_all(value: f32) -> Four
    ensures { result ≡ alike value }
{
    Four {
        first: value,
        second: value,
        third: value,
        fourth: value,
    }
}

// The four values of the wheel from j up.
fn four_at(wheel: &[f32; 23], j: usize) -> Four
    requires { j ≤ 19 }
    ensures { result ≡ four_at wheel.now j }
{
    Four {
        first: wheel[j],
        second: wheel[j + 1],
        third: wheel[j + 2],
        fourth: wheel[j + 3],
    }
}

// Each sum with a product more.
fn add_products(sums: Four, left: Four, right: Four) -> Four
    ensures { result ≡ added_four sums left right }
{
    Four {
        first: sums.first + left.first * right.first,
        second: sums.second + left.second * right.second,
        third: sums.third + left.third * right.third,
        fourth: sums.fourth + left.fourth * right.fourth,
    }
}

// The sums over the pitch classes from C up, for the root and the three above it.
pub fn sum_lanes(away: &[f32; 12], wheel: &[f32; 23], root: usize) -> Four
    requires { root ≤ 8 }
    ensures { result ≡ lanes_of away.now wheel.now root }
{
    let mut sums = same_for_all(0.0);
    for i in 0..12 {
        sums = add_products(sums, same_for_all(away[i]), four_at(wheel, root + 11 - i));
    }
    sums
}
