//! The exact text of a weight, with six digits after the point.

ghost use Rattle.std.specs.Prelude.{◌≡◌, ◌≤◌, take};
ghost use Rattle.crush_units.specs.ExactWeight.{exact_text, ExactIsReadBack, ExactIsCutBack};

use crate::weight::Weight;
use itoa::Buffer;

impl Weight {
    /// Writes the weight's exact text to the start of `out` and returns the length of the text, 8
    /// to 12 bytes. The text is a whole number, a point and six digits. It is the least number of
    /// this form that isn't below the weight. For example, 1 unit is written as `0.000016`.
    ///
    /// [`Weight::read`], which rounds to the nearest unit, reads the same weight from this text. A
    /// program that rounds down to units, such as Ceph's `crushtool`, also reads the same weight.
    #[tactic(auto, using(crate::proofs::ExactWeights::exact_part_short))]
    pub fn exact_text(&self, out: &mut [u8; 16]) -> usize
        ensures fits { result ≤ 16 }
        ensures text { take result out.new ≡ exact_text self.now }
    {
        let parts = (self.units() as u64 * 1000000 + 65535) / 65536;
        let mut buffer = Buffer::new();
        let whole = buffer.format(parts / 1000000).as_bytes();
        let len = whole.len();
        let fraction = [
            b'.',
            48 + (parts / 100000 % 10) as u8,
            48 + (parts / 10000 % 10) as u8,
            48 + (parts / 1000 % 10) as u8,
            48 + (parts / 100 % 10) as u8,
            48 + (parts / 10 % 10) as u8,
            48 + (parts % 10) as u8,
        ];
        prove!(len <= 5);
        out[..len].copy_from_slice(whole);
        out[len..len + 7].copy_from_slice(&fraction);
        len + 7
    }
}

/// The law that the exact text of any weight is read as the same weight.
pub fn exact_is_read_back()
    ensures { ExactIsReadBack }
{}

/// The law that the number in the exact text of any weight, rounded down to units, is the same
/// weight.
pub fn exact_is_cut_back()
    ensures { ExactIsCutBack }
{}
