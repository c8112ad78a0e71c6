//! Splits a stored example into its parts: a name, a map, a job, and the known outputs.

const UNIT_SEPARATOR: u8 = 0x1f;

/// The parts of a stored example (a *record*), in the order in which the record has them. In the
/// record, a unit separator follows each part except for the last part.
#[derive(Clone, Copy)]
pub struct Parts<'a> {
    pub name: &'a [u8],
    pub map: &'a [u8],
    /// The text that is printed for the map, before any call.
    pub printed: &'a [u8],
    pub job: &'a [u8],
    /// The output of the job: the text of the map after all calls, followed by the lines of the
    /// history.
    pub output: &'a [u8],
}

/// Splits a record into its parts. Returns `None` if a part is missing.
pub fn read_parts(record: &[u8]) -> Option<Parts<'_>> {
    let mut parts = record.split(|byte| *byte == UNIT_SEPARATOR);
    Some(Parts {
        name: parts.next()?,
        map: parts.next()?,
        printed: parts.next()?,
        job: parts.next()?,
        output: parts.next()?,
    })
}
