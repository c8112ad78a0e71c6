//! Splits a job into the map's text and the lines after it, and splits a line of a section into
//! words.

ghost use Rattle.std.specs.Prelude.{◌≡◌, ◌+◌, ◌≤◌, ◌<◌, ◌==◌, ◌∷◌, [], true, length, not, MatchOption};
ghost use Rattle.std.specs.List.{position_or_len};
ghost use Rattle.crush_script.specs.Lines.{lines, length_to_section, line_feeds, map_part, section_part, without_return, line_words, words_between_blanks, is_space_or_tab, begins_section, without_comment, from_blanks, behind_word, from_word, place_in_line, word_in_line};

use std::marker::Model;

/// Returns the number of bytes before the first line that begins with `%`. If there is no such
/// line, returns the number of all bytes.
fn length_to_section(job: &[u8]) -> usize
    ensures length { result ≡ length_to_section true job.now }
    ensures within { result ≤ length job.now }
{
    let mut starts = true;
    for (place, byte) in job.iter().enumerate() {
        if starts && *byte == b'%' {
            return place;
        }
        starts = *byte == b'\n';
    }
    job.len()
}

/// Returns the map's text of a job: all bytes before the first line that begins with `%`.
pub fn map_part(job: &[u8]) -> &[u8]
    ensures { result.now ≡ map_part job.now }
{
    cut_job(job).0
}

pub(crate) fn cut_job(job: &[u8]) -> (&[u8], &[u8])
    ensures map { result.0.now ≡ map_part job.now }
    ensures sections { result.1.now ≡ section_part job.now }
    ensures begins { 0 < length result.1.now → begins_section result.1.now ≡ true }
    ensures whole { length result.0.now + length result.1.now ≡ length job.now }
{
    job.split_at(length_to_section(job))
}

/// Returns the number of line feeds in a text.
pub fn line_feeds(text: &[u8]) -> usize
    ensures count { result ≡ line_feeds text.now }
    ensures within { result ≤ length text.now }
{
    text.iter().filter(|byte| **byte == b'\n').count()
}

pub(crate) fn place_of(byte: u8, text: &[u8]) -> usize
    ensures place { result ≡ position_or_len (λ b. b == byte) text.now }
    ensures within { result ≤ length text.now }
{
    for (place, other) in text.iter().enumerate() {
        if *other == byte {
            return place;
        }
    }
    text.len()
}

pub(crate) fn cut_line(text: &[u8]) -> (&[u8], &[u8])
    requires { 0 < length text.now }
    ensures cut { lines text.now ≡ result.0.now ∷ lines result.1.now }
    ensures begins { begins_section result.0.now ≡ begins_section text.now }
    ensures shorter { length result.1.now < length text.now }
{
    let (line, rest) = text.split_at(place_of(b'\n', text));
    match rest {
        [] => (line, rest),
        [_, rest @ ..] => (line, rest),
    }
}

pub(crate) fn begins_section(line: &[u8]) -> bool
    ensures { result ≡ begins_section line.now }
{
    matches!(line, [b'%', ..])
}

fn without_return(line: &[u8]) -> &[u8]
    ensures value { result.now ≡ without_return line.now }
    ensures within { length result.now ≤ length line.now }
{
    match line {
        [front @ .., b'\r'] => front,
        _ => line,
    }
}

fn is_space_or_tab(byte: u8) -> bool
    ensures { result ≡ is_space_or_tab byte }
{
    byte == b' ' || byte == b'\t'
}

fn blank_at(text: &[u8]) -> usize
    ensures place { result ≡ position_or_len is_space_or_tab text.now }
    ensures within { result ≤ length text.now }
{
    for (place, byte) in text.iter().enumerate() {
        if is_space_or_tab(*byte) {
            return place;
        }
    }
    text.len()
}

fn word_at(text: &[u8]) -> usize
    ensures place { result ≡ position_or_len (λ b. not (is_space_or_tab b)) text.now }
    ensures within { result ≤ length text.now }
{
    for (place, byte) in text.iter().enumerate() {
        if !is_space_or_tab(*byte) {
            return place;
        }
    }
    text.len()
}

/// The words of a line of a section that haven't been read yet. In contracts, a value of this type
/// is the list of these words.
#[derive(Drop)]
pub(crate) struct LineWords<'a> {
    text: &'a [u8],
}

impl<'a> Model for LineWords<'a> {
    ghost use Rattle.std.specs.Prelude.{List, ℕ};

    ghost Value = { List (List ℕ) };

    ghost use Rattle.crush_script.specs.Lines.{words_between_blanks};

    ghost view = { λ w. words_between_blanks w.text.now };
}

impl<'a> LineWords<'a> {
    /// Returns all words of a line, none of which has been read yet. Spaces and tabs separate
    /// words.
    ///
    /// A `#` anywhere in the line begins a comment, which has no words. A carriage return at the
    /// end of the line is ignored. `line` must not have a line feed at its end, because a line feed
    /// would be a part of a word.
    pub(crate) fn of_line(line: &'a [u8]) -> LineWords<'a>
        ensures { result ≡ line_words line.now }
    {
        LineWords {
            text: without_comment(line),
        }
    }

    /// Removes the next word and returns it, or returns `None` if no word is left.
    pub(crate) fn next(&mut self) -> Option<&'a [u8]>
        ensures { MatchOption result (self.old ≡ [])
            (λ word. self.old ≡ word.now ∷ self.new) }
    {
        let (_, rest) = self.text.split_at(word_at(self.text));
        if rest.is_empty() {
            return None;
        }
        let (word, rest) = rest.split_at(blank_at(rest));
        self.text = rest;
        Some(word)
    }
}

/// A word of a line, and its place in the line.
#[derive(Clone, Copy)]
pub struct PlacedWord<'a> {
    /// The index of the word's first byte in the line, from 0.
    pub place: usize,
    /// The bytes of the word.
    pub text: &'a [u8],
}

fn without_comment(line: &[u8]) -> &[u8]
    ensures value { result.now ≡ without_comment (without_return line.now) }
    ensures within { length result.now ≤ length line.now }
{
    let whole = without_return(line);
    whole.split_at(place_of(b'#', whole)).0
}

/// Returns the rest of a text, beginning with its first word. If the text has no word, returns no
/// bytes.
fn from_blanks(text: &[u8]) -> &[u8]
    ensures value { result.now ≡ from_blanks text.now }
    ensures within { length result.now ≤ length text.now }
{
    text.split_at(word_at(text)).1
}

/// Returns the rest of a text after its first word. If the text has no word, returns no bytes.
fn behind_word(text: &[u8]) -> &[u8]
    ensures value { result.now ≡ behind_word text.now }
    ensures within { length result.now ≤ length text.now }
{
    let rest = from_blanks(text);
    rest.split_at(blank_at(rest)).1
}

/// Returns the rest of a text, beginning with the word at this index. The index counts from 0. If
/// the text has no word at this index, returns no bytes.
fn from_word(index: usize, text: &[u8]) -> &[u8]
    ensures value { result.now ≡ from_word index text.now }
    ensures within { length result.now ≤ length text.now }
{
    let mut rest = text;
    for _done in 0..index {
        rest = behind_word(rest);
    }
    from_blanks(rest)
}

/// Returns the word at this index of a line, and its place. The index counts words from 0, and the
/// place counts bytes from 0.
///
/// Spaces and tabs separate words, and `#` begins a comment. `line` must not have a line feed at
/// its end, because a line feed would be part of a word. If the line has no word at this index, the
/// returned word has no bytes. The place is then where the line's comment begins. If there is no
/// comment either, the place is the end of the line, or the place of the carriage return with which
/// the line ends.
pub fn placed_word(line: &[u8], index: usize) -> PlacedWord<'_>
    ensures place { result.place ≡ place_in_line index line.now }
    ensures text { result.text.now ≡ word_in_line index line.now }
    ensures within { result.place ≤ length line.now }
{
    let front = without_comment(line);
    let rest = from_word(index, front);
    PlacedWord {
        place: front.len() - rest.len(),
        text: rest.split_at(blank_at(rest)).0,
    }
}
