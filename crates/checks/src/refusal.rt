// Why a call is refused before it begins.
ghost use Rattle.std.specs.Prelude.{◌≡◌};
ghost use Rattle.checks.specs.Refusals.{number_of};

// The reasons, each by a row of the check table.
#[derive(Clone, Copy, Debug, PartialEq, Eq)]
pub enum Refusal {
    RateTooHigh,
    FrameOrHopTooLarge,
    SettingNotFinite,
    EngineUnknown,
    TrackTooLong,
    HopTooShort,
    SheetOfAnotherCall,
    SheetNotWellFormed,
    RoomTooSmall,
}

// The number that document 01, and for the engine document 02, gives the reason.
impl From<Refusal> for u32 {
    ghost from_gives = { λ refusal number. number ≡ number_of refusal };

    fn from(refusal: Refusal) -> u32 {
        match refusal {
            Refusal::RateTooHigh => 1,
            Refusal::FrameOrHopTooLarge => 2,
            Refusal::SettingNotFinite => 3,
            Refusal::EngineUnknown => 13,
            Refusal::TrackTooLong => 4,
            Refusal::HopTooShort => 5,
            Refusal::SheetOfAnotherCall => 6,
            Refusal::SheetNotWellFormed => 7,
            Refusal::RoomTooSmall => 8,
        }
    }
}
