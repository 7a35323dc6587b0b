// From the verdict on a track to the answer: segments, the reported key and the alternate key.
ghost use Rattle.std.specs.Prelude.{◌≡◌};
ghost use Rattle.timeline.specs.Estimates.{lent_estimates};
ghost use Rattle.timeline.specs.Segments.{lent_segments};
ghost use Rattle.timeline.specs.inside.Segments.{lent_stretches, stretches_in, Stretched};
ghost use Rattle.windows.specs.Span.{span_of};
ghost use Rattle.gathering.specs.Gather.{heard};
ghost use Rattle.segments.specs.inside.Located.{Prepared};
ghost use Rattle.reports.specs.Report.{named_in, report_of};
ghost use Rattle.reports.specs.inside.Rows.{track_of, reported, reported_in};

use alternates::alternate::alternate_key;
use answers::answer::{AnalyseResult, Counts, with_alternate};
use calls::Settings;
use conversions::widen;
use gathering::frames::LentFrames;
use longest::longest::reported_key;
use segments::fill::Track;
use segments::track::locate_segments;
use timeline::estimate_rows::LentEstimates;
use timeline::segment_rows::LentSegments;
use verdicts::verdict::Verdict;
use windows::span::{Span, span_of};

// What the segments rest on beside the estimates.
fn track_of(settings: Settings, span: Span, verdict: Verdict) -> Track
    ensures { result ≡ track_of settings span verdict }
{
    let key = verdict.key;
    Track {
        threshold: settings.segment_confidence_threshold,
        minimum: widen(settings.minimum_segment_seconds),
        duration: span.duration,
        key,
        confidence: verdict.confidence,
    }
}

// The answer that the segments in the first rows give.
fn name_keys(
    threshold: f32,
    verdict: Verdict,
    counts: Counts,
    starts: &[f64],
    ends: &[f64],
    keys: &[u8],
) -> AnalyseResult
    requires { Stretched (lent_stretches starts.now ends.now keys.now) counts.segments }
    ensures { result ≡ named_in threshold verdict counts (stretches_in (lent_stretches starts.now ends.now keys.now) counts.segments) }
{
    let classified = verdict.key;
    let segments = counts.segments;
    let reported = reported_key(classified, segments, starts, ends, keys);
    let other = alternate_key(reported, threshold, segments, starts, ends, keys);
    with_alternate(verdict, reported, counts, other)
}

// Estimates and segments go into their rows, and the answer tells of them.
pub fn report_track(
    settings: Settings,
    samples: usize,
    verdict: Verdict,
    frames: usize,
    centres: &[f64],
    values: &[[f32; 12]],
    middles: &mut [f64],
    numbers: &mut [u8],
    certainties: &mut [f32],
    shapeless: &mut [u8],
    starts: &mut [f64],
    ends: &mut [f64],
    keys: &mut [u8],
    confidences: &mut [f32],
    counts: &mut [u32],
) -> AnalyseResult
    requires { Prepared (span_of settings samples) (heard frames centres.now values.now) (lent_estimates middles.old numbers.old certainties.old shapeless.old) (lent_segments starts.old ends.old keys.old confidences.old counts.old) }
    ensures { reported result (lent_estimates middles.new numbers.new certainties.new shapeless.new) (lent_segments starts.new ends.new keys.new confidences.new counts.new) ≡ reported_in (report_of settings samples verdict (heard frames centres.now values.now)) (lent_estimates middles.old numbers.old certainties.old shapeless.old) (lent_segments starts.old ends.old keys.old confidences.old counts.old) }
{
    let span = span_of(settings, samples);
    let track = track_of(settings, span, verdict);
    let mut found = LentEstimates {
        centres: middles,
        keys: numbers,
        confidences: certainties,
        shapeless,
    };
    let mut rows = LentSegments {
        starts,
        ends,
        keys,
        confidences,
        counts,
    };
    let located = locate_segments(
        span,
        track,
        LentFrames {
            count: frames,
            centres,
            values,
        },
        &mut found,
        &mut rows,
    );
    let told = rows.stretches();
    name_keys(
        settings.alternate_coverage_threshold,
        verdict,
        Counts {
            frames,
            estimates: located.estimates,
            segments: located.segments,
        },
        told.starts,
        told.ends,
        told.keys,
    )
}
