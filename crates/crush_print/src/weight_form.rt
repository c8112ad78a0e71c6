//! The forms in which weights are printed in a map's text.

ghost use Rattle.std.specs.Prelude.{◌≡◌, ◌≤◌, take};
ghost use Rattle.crush_print.specs.Lines.{weight_in};

use crush_units::Weight;

/// How weights are printed in a map's text. This library reads the same weight from both forms.
#[derive(Clone, Copy, Debug, PartialEq, Eq)]
pub enum WeightForm {
    /// With five digits after the point, rounded to the nearest such number, as `crushtool -d`
    /// prints weights.
    Rounded,
    /// With six digits after the point. A program that rounds a weight down to units when it reads
    /// the weight, as `crushtool -c` does, then gets the same weight.
    Exact,
}

impl WeightForm {
    /// Writes the weight in this form to the start of `out`, and returns the length of the text.
    pub(crate) fn text(self, weight: Weight, out: &mut [u8; 16]) -> usize
        ensures fits { result ≤ 16 }
        ensures text { take result out.new ≡ weight_in self weight }
    {
        match self {
            WeightForm::Rounded => weight.text(out),
            WeightForm::Exact => weight.exact_text(out),
        }
    }
}
