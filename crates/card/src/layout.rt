// A card's layouts, and the packed numbers that it holds.
ghost use Rattle.std.specs.Prelude.{◌≡◌};
ghost use Rattle.card.specs.Layout.{layout1, layout2, layouts, numbered_in};

// A layout's number, the bits of its segment count and of an end, the most segments, and the last end in ms.
#[derive(Clone, Copy)]
pub struct Layout {
    pub number: u64,
    pub count: usize,
    pub end: usize,
    pub most: usize,
    pub last: u64,
}

// A header's packed numbers; a missing key is 24.
#[derive(Clone, Copy)]
pub struct Header {
    pub key: u64,
    pub dsp: u64,
    pub alternate: u64,
    pub coverage: u64,
    pub confidence: u64,
}

// A segment's packed numbers.
#[derive(Clone, Copy)]
pub struct Segment {
    pub end: u64,
    pub key: u64,
    pub confidence: u64,
}

// The most segments of any card.
pub const MOST_SEGMENTS: usize = 4_095;

// The last end of any card in ms.
pub const LAST_END: u64 = 86_400_000;

// Layout 1, for up to four hours.
pub fn layout_1() -> Layout
    ensures { result ≡ layout1 }
{
    Layout {
        number: 1,
        count: 10,
        end: 24,
        most: 1_023,
        last: 14_400_000,
    }
}

// Layout 2, for up to a day.
pub fn layout_2() -> Layout
    ensures { result ≡ layout2 }
{
    Layout {
        number: 2,
        count: 12,
        end: 27,
        most: 4_095,
        last: 86_400_000,
    }
}

// The known layout with this number.
pub fn layout_numbered(number: u64) -> Option<Layout>
    ensures { result ≡ numbered_in layouts number }
{
    if number == 1 {
        return Some(layout_1());
    }
    if number == 2 {
        return Some(layout_2());
    }
    None
}
