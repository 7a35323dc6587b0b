// Which frames a window need look at.
ghost use Rattle.std.specs.Prelude.{◌≡◌, ◌≤◌, length};
ghost use Rattle.gathering.specs.inside.Ahead.{rises, ahead_of, first_from, skipped_to, stop_of};

// So many frames, the first that a window may count, and whether no centre is below the one before it.
#[derive(Clone, Copy)]
pub struct Ahead {
    pub frames: usize,
    pub from: usize,
    pub rising: bool,
}

// Whether no centre is below the one before it; with a NaN it is not so.
fn are_rising(frames: usize, centres: &[f64]) -> bool
    requires { frames ≤ length centres.now }
    ensures { result ≡ rises frames centres.now }
{
    let mut rising = true;
    for i in 1..frames {
        rising &= centres[i - 1] <= centres[i];
    }
    rising
}

// All frames are ahead.
pub fn look_ahead(frames: usize, centres: &[f64]) -> Ahead
    requires { frames ≤ length centres.now }
    ensures { result ≡ ahead_of frames centres.now }
{
    let rising = are_rising(frames, centres);
    Ahead {
        frames,
        from: 0,
        rising,
    }
}

// The first frame ahead with a centre at `start` or after it.
fn first_from(ahead: Ahead, start: f64, centres: &[f64]) -> usize
    requires { ahead.frames ≤ length centres.now }
    ensures { result ≡ first_from ahead start centres.now }
{
    for i in ahead.from..ahead.frames {
        if start <= centres[i] {
            return i;
        }
    }
    ahead.from.max(ahead.frames)
}

// The frames before that one are left behind.
pub fn skip_frames(ahead: Ahead, start: f64, centres: &[f64]) -> Ahead
    requires { ahead.frames ≤ length centres.now }
    ensures { result ≡ skipped_to ahead start centres.now }
{
    let from = first_from(ahead, start, centres);
    Ahead {
        frames: ahead.frames,
        from,
        rising: ahead.rising,
    }
}

// Where a window that ends there may stop: at the first frame ahead that is not below its end, where the centres rise.
pub fn find_stop(ahead: Ahead, end: f64, centres: &[f64]) -> usize
    requires { ahead.frames ≤ length centres.now }
    ensures { result ≡ stop_of ahead end centres.now }
{
    if !ahead.rising {
        return ahead.frames;
    }
    for i in ahead.from..ahead.frames {
        if !(centres[i] < end) {
            return i;
        }
    }
    ahead.from.max(ahead.frames)
}
