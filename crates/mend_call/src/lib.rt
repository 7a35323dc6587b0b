// The call "mend a card", whole.
#![tactic(auto)]

ghost use Rattle.std.specs.Prelude.{◌≡◌};
ghost use Rattle.mend_call.specs.Mends.{card_mended, mend_outcome, mend_call};
ghost use Rattle.mend_call.specs.inside.Mendable.{Headed, Mendable};

use card::layout::{Header, Layout, layout_numbered};
use card_form::card_size;
use card_mender::header::{alternate_goes, key_broken, mended_header};
use card_mender::segments::{kept_count, mended_layout};
use card_mender::write::write_card;
use card_reader::on_card::{count_on, header_on, number_on};
use numbers::flags::one_if;

// What was kept of a card: the refusal's number, or 0; 1 where the alternate went; how many segments were kept, and how
// many the old count claimed; how many bytes the mended card has.
#[repr(C)]
#[derive(Clone, Copy)]
pub struct CardMended {
    pub refusal: u32,
    pub alternate_went: u32,
    pub kept: u64,
    pub claimed: u64,
    pub length: usize,
}

// The answer of a card that is not mended.
fn unmended(refusal: u32) -> CardMended
    ensures { result ≡ card_mended refusal 0 0 0 0 }
{
    CardMended {
        refusal,
        alternate_went: 0,
        kept: 0,
        claimed: 0,
        length: 0,
    }
}

// Writes what is kept of a card: its header `old`, of `claimed` segments the first `kept`.
fn write_kept(
    bytes: &[u8],
    l: Layout,
    old: Header,
    claimed: usize,
    kept: usize,
    room: &mut [u8],
) -> CardMended
    requires { Mendable bytes.now l old claimed kept }
    ensures { mend_outcome result room.new ≡ mend_call bytes.now room.old }
{
    let h = mended_header(l, old);
    let to = mended_layout(bytes, l, h, kept);
    if room.len() < card_size(to, kept) {
        return unmended(44);
    }
    let went = one_if(alternate_goes(l, old));
    let length = write_card(room, to, h, bytes, l, kept);
    CardMended {
        refusal: 0,
        alternate_went: went as u32,
        kept: kept as u64,
        claimed: claimed as u64,
        length,
    }
}

// Mends a card whose header is there, in the layout that it names.
fn mend_headed(bytes: &[u8], l: Layout, room: &mut [u8]) -> CardMended
    requires { Headed bytes.now l }
    ensures { mend_outcome result room.new ≡ mend_call bytes.now room.old }
{
    let h = header_on(bytes, l);
    if key_broken(l, h) {
        return unmended(42);
    }
    let claimed = count_on(bytes, l);
    let kept = kept_count(bytes, l, h, claimed);
    if !(h.key == 24) & (kept == 0) {
        return unmended(43);
    }
    write_kept(bytes, l, h, claimed, kept, room)
}

// Mends a card: what is kept of it goes to the front of the room, as a card that can be read.
pub fn mend_card(bytes: &[u8], room: &mut [u8]) -> CardMended
    ensures { mend_outcome result room.new ≡ mend_call bytes.now room.old }
{
    if bytes.len() < 7 {
        return unmended(40);
    }
    let found = layout_numbered(number_on(bytes));
    match found {
        None => unmended(41),
        Some(l) => mend_headed(bytes, l, room),
    }
}
