// The whole way from frames to segments, over rows of any length.
ghost use Rattle.std.specs.Prelude.{◌≡◌};
ghost use Rattle.timeline.specs.Estimates.{lent_estimates};
ghost use Rattle.timeline.specs.Segments.{lent_segments};
ghost use Rattle.probe_segments.specs.Segments.{heard_in, probed_track, can_run, probed, probed_segments};

use crate::segments_of_rows::track_of;
use calls::Settings;
use conversions::widen;
use gathering::frames::LentFrames;
use segments::fill::Track;
use segments::track::locate_segments;
use timeline::estimate::estimate_room;
use timeline::estimate_rows::LentEstimates;
use timeline::segment::segment_room;
use timeline::segment_rows::LentSegments;
use windows::span::{rows_asked, span_of};

// How many estimates and segments there are, with an outcome.
#[repr(C)]
#[derive(Clone, Copy)]
pub struct ProbedSegments {
    pub outcome: u32,
    pub estimates: usize,
    pub segments: usize,
}

// Whether the hop is above 0, and both kinds of rows have the room that the windows ask for.
fn can_run(hop: f32, asked: usize, estimates: usize, segments: usize) -> bool
    ensures { result ≡ can_run hop asked estimates segments }
{
    (0.0 < hop) & (asked <= estimates) & (asked <= segments) & (1 <= segments)
}

// The track that the settings tell of, with its own key.
fn probed_track(settings: Settings, samples: usize, key: u8, confidence: f32) -> Track
    ensures { result ≡ probed_track settings samples key confidence }
{
    let span = span_of(settings, samples);
    let minimum = widen(settings.minimum_segment_seconds);
    track_of(
        settings.segment_confidence_threshold,
        minimum,
        span.duration,
        key,
        confidence,
    )
}

// Estimates and segments of a track, where its windows go on and there is room for them.
#[unsafe(no_mangle)]
pub extern "C" fn probe_segments(
    settings: Settings,
    samples: usize,
    key: u8,
    confidence: f32,
    centres: &[f64],
    values: &[[f32; 12]],
    middles: &mut [f64],
    numbers: &mut [u8],
    certainties: &mut [f32],
    shapeless: &mut [u8],
    starts: &mut [f64],
    ends: &mut [f64],
    keys: &mut [u8],
    confidences: &mut [f32],
    counts: &mut [u32],
) -> ProbedSegments
    ensures { probed result (lent_estimates middles.new numbers.new certainties.new shapeless.new) (lent_segments starts.new ends.new keys.new confidences.new counts.new) ≡ probed_segments settings samples (probed_track settings samples key confidence) (heard_in centres.now values.now) (lent_estimates middles.old numbers.old certainties.old shapeless.old) (lent_segments starts.old ends.old keys.old confidences.old counts.old) }
{
    let span = span_of(settings, samples);
    let asked = rows_asked(span);
    let estimates = estimate_room(middles, numbers, certainties, shapeless);
    let room = segment_room(starts, ends, keys, confidences, counts);
    if !can_run(settings.local_hop_seconds, asked, estimates, room) {
        return ProbedSegments {
            outcome: 8,
            estimates: 0,
            segments: 0,
        };
    }
    let track = probed_track(settings, samples, key, confidence);
    let frames = centres.len().min(values.len());
    let mut found = LentEstimates {
        centres: middles,
        keys: numbers,
        confidences: certainties,
        shapeless,
    };
    let mut rows = LentSegments {
        starts,
        ends,
        keys,
        confidences,
        counts,
    };
    let located = locate_segments(
        span,
        track,
        LentFrames {
            count: frames,
            centres,
            values,
        },
        &mut found,
        &mut rows,
    );
    ProbedSegments {
        outcome: 0,
        estimates: located.estimates,
        segments: located.segments,
    }
}
