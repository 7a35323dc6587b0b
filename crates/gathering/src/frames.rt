// The loud frames that windows run over, in lent rows.

// So many frames, each with its centre in seconds and its chroma.
#[derive(Clone, Copy)]
pub struct LentFrames<'a> {
    pub count: usize,
    pub centres: &'a [f64],
    pub values: &'a [[f32; 12]],
}
