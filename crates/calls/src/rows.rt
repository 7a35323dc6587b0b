// What a call lends to be written: frame rows, as three slices side by side.
ghost use Rattle.std.specs.Prelude.{◌≡◌};
ghost use Rattle.calls.specs.Rows.{room_in};
ghost use Rattle.calls.specs.Lent.{rows_in};

// A row is a frame's centre in seconds, its chroma and its energy.
#[derive(Drop)]
pub struct FrameRows<'a> {
    pub centres: &'a mut [f64],
    pub values: &'a mut [[f32; 12]],
    pub energies: &'a mut [f32],
}

impl FrameRows<'_> {
    // How many rows there is room for.
    pub fn room(&self) -> usize
        ensures { result ≡ room_in (rows_in self.now) }
    {
        self.centres
            .len()
            .min(self.values.len())
            .min(self.energies.len())
    }
}
