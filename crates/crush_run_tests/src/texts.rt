//! Compares texts in tests.

use std::process::Abort;

/// Asserts that a text has the expected bytes. If it doesn't, the failure shows both texts. In the
/// shown texts, U+FFFD stands for bytes that aren't UTF-8.
pub fn assert_text(rt: &(impl Abort + AllocGlobal), text: &[u8], expected: &[u8]) {
    let shown = String::from_utf8_lossy(rt.alloc(), text).expect(rt, "no memory");
    let wanted = String::from_utf8_lossy(rt.alloc(), expected).expect(rt, "no memory");
    assert_eq!(rt; shown.as_str(), wanted.as_str());
    assert!(rt; text == expected);
}

/// Asserts that a text begins with the expected bytes. If it doesn't, the failure shows these
/// bytes, and as many bytes from the beginning of the text.
pub fn assert_begins(rt: &(impl Abort + AllocGlobal), text: &[u8], expected: &[u8]) {
    let (first, _) = text.split_at(text.len().min(expected.len()));
    assert_text(rt, first, expected);
}

/// Asserts that a text ends with the expected bytes. If it doesn't, the failure shows these bytes,
/// and as many bytes from the end of the text.
pub fn assert_ends(rt: &(impl Abort + AllocGlobal), text: &[u8], expected: &[u8]) {
    let most = text.len().min(expected.len());
    let (_, last) = text.split_at(text.len() - most);
    assert_text(rt, last, expected);
}
