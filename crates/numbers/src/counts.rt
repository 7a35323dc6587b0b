// Counts.
ghost use Rattle.std.specs.Prelude.{◌≡◌, min};

// The smaller of two counts.
pub fn fewer(a: usize, b: usize) -> usize
    ensures { result ≡ min a b }
{
    if a < b { a } else { b }
}
