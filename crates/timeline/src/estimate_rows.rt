// Estimates in lent rows: four slices side by side.
ghost use Rattle.std.specs.Prelude.{◌≡◌, ◌<◌, length};
ghost use Rattle.timeline.specs.Estimates.{estimate_room};
ghost use Rattle.timeline.specs.inside.Estimates.{columns_of, put_estimate};
ghost use Rattle.timeline.specs.inside.Lent.{estimates_lent, columns_lent, SameEstimates};

use crate::columns::LentColumns;
use crate::estimate::Estimate;

// Rows of estimates: the middles in seconds, the keys by number, how sure they are, and 1 where the chroma has no shape.
#[derive(Drop)]
pub struct LentEstimates<'a> {
    pub centres: &'a mut [f64],
    pub keys: &'a mut [u8],
    pub confidences: &'a mut [f32],
    pub shapeless: &'a mut [u8],
}

impl LentEstimates<'_> {
    // An estimate goes into place n.
    pub fn put(&mut self, n: usize, estimate: Estimate)
        requires { (n < length self.old.centres.now) × (n < length self.old.keys.now) × (n < length self.old.confidences.now) × (n < length self.old.shapeless.now) }
        ensures same_slices { SameEstimates self.old self.new }
        ensures rows { estimates_lent self.new ≡ put_estimate estimate n (estimates_lent self.old) }
    {
        self.centres[n] = estimate.centre;
        self.keys[n] = u8::from(estimate.key);
        self.confidences[n] = estimate.confidence;
        self.shapeless[n] = u8::from(estimate.shapeless);
    }

    // How many rows there are.
    pub fn room(&self) -> usize
        ensures { result ≡ estimate_room (estimates_lent self.now) }
    {
        let told = self.confidences.len().min(self.shapeless.len());
        self.centres.len().min(self.keys.len().min(told))
    }

    // The columns that segments are made of.
    pub fn columns(&self) -> LentColumns<'_>
        ensures { columns_lent result ≡ columns_of (estimates_lent self.now) }
    {
        LentColumns {
            centres: self.centres,
            keys: self.keys,
            confidences: self.confidences,
        }
    }
}
