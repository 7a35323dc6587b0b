// The part of a track that a window around a centre covers.
ghost use Rattle.std.specs.Prelude.{◌≡◌, ◌≤◌};
ghost use Rattle.constant_q.specs.ConstantQ.{half_left};
ghost use Rattle.constant_q.specs.inside.Powers.{covered_span};

// The part of the track that a window covers: its first sample, and how many there are.
#[derive(Clone, Copy)]
pub struct Span {
    pub start: usize,
    pub count: usize,
}

// A window of this size around a centre, cut at the track's ends.
pub fn span_around(size: usize, centre: usize, samples: usize) -> Span
    requires { centre ≤ samples }
    ensures { result ≡ covered_span size centre samples }
{
    let start = centre.saturating_sub(size / 2);
    let count = size.min(samples - start);
    Span { start, count }
}

// Whether half of a window at least lies on the track.
pub fn half_is_left(size: usize, centre: usize, samples: usize) -> bool
    requires { centre ≤ samples }
    ensures { result ≡ half_left size centre samples }
{
    let span = span_around(size, centre, samples);
    span.count >= size / 2
}
