//! The expected results of the runs. There is one part for each run, in the order of the runs.

/// The expected parts, one for each run, and how many of them have been compared with runs so far.
#[derive(Clone, Copy)]
pub struct Expected<'e> {
    parts: &'e [&'e [u8]],
    taken: usize,
}

impl<'e> Expected<'e> {
    /// Returns the expected parts for all runs. None of the parts has been compared yet.
    pub fn new(parts: &'e [&'e [u8]]) -> Expected<'e> {
        Expected { parts, taken: 0 }
    }

    /// Takes the next part, and returns whether it equals `written`, which is what a run has
    /// written. If no part is left, returns `false`.
    pub fn takes(&mut self, written: &[u8]) -> bool {
        match self.parts.get(self.taken) {
            Some(part) => {
                self.taken += 1;
                *part == written
            }
            None => false,
        }
    }

    /// Returns the number of parts that haven't been compared yet.
    pub fn left(&self) -> usize {
        self.parts.len().saturating_sub(self.taken)
    }
}
