// The call "read a card", whole.
#![tactic(auto)]

ghost use Rattle.std.specs.Prelude.{◌≡◌, ◌^◌, ◌<◌};
ghost use Rattle.laws.specs.Front.{list};
ghost use Rattle.bits.specs.Bits.{bits_of_bytes};
ghost use Rattle.card_form.specs.Form.{segment_on};
ghost use Rattle.card_form.specs.Rows.{lent_card_rows, rows_in, holding_card};
ghost use Rattle.read_call.specs.Reads.{unread, read_answer, read_outcome, read_call};
ghost use Rattle.read_call.specs.inside.Readable.{CanRead, card_rows, SameSlices, HasRow, RowFits, with_row};

use card::layout::{Header, Layout, Segment};
use card_reader::judge::judge_card;
use card_reader::on_card::{count_on, header_on, segment_on};

// What a card says of the whole track: the refusal's number, or 0; keys by number, 24 for a missing one; coverage and
// confidence in thousandths; how many segments there are.
#[repr(C)]
#[derive(Clone, Copy)]
pub struct CardRead {
    pub refusal: u32,
    pub key: u32,
    pub dsp_key: u32,
    pub alternate: u32,
    pub coverage: u32,
    pub confidence: u32,
    pub segments: u64,
}

// The answer of a card that is not read.
fn unread_card(refusal: u32) -> CardRead
    ensures { result ≡ unread refusal }
{
    CardRead {
        refusal,
        key: 24,
        dsp_key: 24,
        alternate: 24,
        coverage: 0,
        confidence: 0,
        segments: 0,
    }
}

// The answer of a card that is read, from its header and its segment count.
fn read_answer(h: Header, count: usize) -> CardRead
    requires { (h.key < 2 ^ 32) × (h.dsp < 2 ^ 32) × (h.alternate < 2 ^ 32) × (h.coverage < 2 ^ 32) × (h.confidence < 2 ^ 32) }
    ensures { result ≡ read_answer h count }
{
    CardRead {
        refusal: 0,
        key: h.key as u32,
        dsp_key: h.dsp as u32,
        alternate: h.alternate as u32,
        coverage: h.coverage as u32,
        confidence: h.confidence as u32,
        segments: count as u64,
    }
}

// Four lent slices side by side, of which each place holds a segment.
#[derive(Drop)]
struct LentRows<'a> {
    starts: &'a mut [u32],
    ends: &'a mut [u32],
    keys: &'a mut [u8],
    confidences: &'a mut [u16],
}

impl LentRows<'_> {
    // How many segments there is room for.
    fn room(&self) -> usize
        ensures { result ≡ rows_in (card_rows self.now) }
    {
        self.starts
            .len()
            .min(self.ends.len())
            .min(self.keys.len())
            .min(self.confidences.len())
    }

    // Puts a segment into place i.
    fn put(&mut self, i: usize, start: u32, s: Segment)
        requires { HasRow (card_rows self.old) i × RowFits s }
        ensures same { SameSlices self.old self.new }
        ensures row { card_rows self.new ≡ with_row i start s (card_rows self.old) }
    {
        self.starts[i] = start;
        self.ends[i] = s.end as u32;
        self.keys[i] = s.key as u8;
        self.confidences[i] = s.confidence as u16;
    }

    // Writes the segments of a readable card from the front.
    fn read_segments(&mut self, bytes: &[u8], l: Layout, count: usize)
        requires { CanRead bytes.now l count (card_rows self.old) }
        ensures same { SameSlices self.old self.new }
        ensures rows { card_rows self.new ≡ holding_card (list (segment_on l (bits_of_bytes bytes.now)) count) (card_rows self.old) }
    {
        let mut previous = 0;
        for i in 0..count {
            let s = segment_on(bytes, l, i);
            self.put(i, previous, s);
            previous = s.end as u32;
        }
    }
}

// Reads a card: its segments go to the front of the rows, and the answer tells the rest.
pub fn read_card(
    bytes: &[u8],
    starts: &mut [u32],
    ends: &mut [u32],
    keys: &mut [u8],
    confidences: &mut [u16],
) -> CardRead
    ensures { read_outcome result (lent_card_rows starts.new ends.new keys.new confidences.new) ≡ read_call bytes.now (lent_card_rows starts.old ends.old keys.old confidences.old) }
{
    let mut rows = LentRows {
        starts,
        ends,
        keys,
        confidences,
    };
    match judge_card(bytes, rows.room()) {
        Err(error) => unread_card(error.number()),
        Ok(l) => {
            let count = count_on(bytes, l);
            rows.read_segments(bytes, l, count);
            read_answer(header_on(bytes, l), count)
        }
    }
}
