// The columns of estimates that segments are made of.

// The middles in seconds, the keys by number, and how sure they are.
#[derive(Clone, Copy)]
pub struct LentColumns<'a> {
    pub centres: &'a [f64],
    pub keys: &'a [u8],
    pub confidences: &'a [f32],
}
