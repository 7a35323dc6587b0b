// Keys: twelve tonics and two modes, their numbers, and which keys are relatives.
#![tactic(auto)]

pub mod numbers;

// The Rust's PitchClass.
#[derive(Clone, Copy, PartialEq, Eq)]
pub enum Tonic {
    C,
    CSharp,
    D,
    DSharp,
    E,
    F,
    FSharp,
    G,
    GSharp,
    A,
    ASharp,
    B,
}

impl Tonic {
    // The tonics in their order.
    const ALL: [Self; 12] = [
        Self::C,
        Self::CSharp,
        Self::D,
        Self::DSharp,
        Self::E,
        Self::F,
        Self::FSharp,
        Self::G,
        Self::GSharp,
        Self::A,
        Self::ASharp,
        Self::B,
    ];
}

#[derive(Clone, Copy, PartialEq, Eq)]
pub enum Mode {
    Major,
    Minor,
}

// The Rust's MusicalKey.
#[derive(Clone, Copy, PartialEq, Eq)]
pub struct Key {
    pub tonic: Tonic,
    pub mode: Mode,
}
