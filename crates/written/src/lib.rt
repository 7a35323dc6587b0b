// What a call answers that writes into lent bytes.
#![tactic(auto)]

ghost use Rattle.std.specs.Prelude.{◌≡◌};
ghost use Rattle.written.specs.Outcome.{answered};

// The refusal's number, or 0, and how many bytes were written.
#[repr(C)]
#[derive(Clone, Copy)]
pub struct Written {
    pub refusal: u32,
    pub length: usize,
}

// A call that writes nothing.
pub fn refused(refusal: u32) -> Written
    ensures { result ≡ answered refusal 0 }
{
    Written { refusal, length: 0 }
}
