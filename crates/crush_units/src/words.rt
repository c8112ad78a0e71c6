//! Splits a map's text into words. A word is a brace, or a sequence of bytes that are allowed in
//! names. Blanks and comments are skipped. A comment extends from `#` to the end of its line.

ghost use Rattle.std.specs.Prelude.{◌≡◌, if◌then◌else◌, ◌+◌, ◌<◌, ◌≤◌, length, drop, IsTrue};
ghost use Rattle.crush_units.specs.Name.{is_name_byte};
ghost use Rattle.crush_units.specs.Words.{Text, words, begins, past, is_blank, is_brace, run_length, IsClear};

use crate::limits::LONGEST_NAME;
use crate::name::is_name_byte;
use std::marker::Model;

/// The next word of a text, or the reason why there is none. `place` is an index of a byte in the
/// text, from 0.
#[derive(Clone, Copy)]
pub enum Token<'a> {
    /// The next word begins at `place`, and `text` has its bytes. The word is a brace, or it
    /// consists of 1 to 255 bytes that are allowed in names: it is a name, a keyword or a number.
    Word { place: usize, text: &'a [u8] },
    /// The text has no further word. `place` is the text's length.
    End { place: usize },
    /// The byte at `place` is allowed only in comments, or it is the first byte of a word of more
    /// than 255 bytes.
    Bad { place: usize },
}

/// A text, and the index of the first byte that hasn't been read yet.
#[derive(Clone, Copy)]
struct Lexer<'a> {
    text: &'a [u8],
    place: usize,
    ghost within: { place ≤ length text.now },
}

fn is_blank(byte: u8) -> bool
    ensures { result ≡ is_blank byte }
{
    byte == b' ' || byte == b'\t' || byte == b'\n' || byte == b'\r'
}

fn is_brace(byte: u8) -> bool
    ensures { result ≡ is_brace byte }
{
    byte == b'{' || byte == b'}'
}

/// Whether the byte is allowed in a name. For speed, the function compares with the most frequent
/// bytes first.
fn is_word_byte(byte: u8) -> bool
    ensures { result ≡ is_name_byte byte }
{
    matches!(byte, b'0'..=b'9' | b'a'..=b'z') || is_name_byte(byte)
}

/// Returns the length of the longest prefix all of whose bytes are allowed in names.
fn run_length(bytes: &[u8]) -> usize
    ensures count { result ≡ run_length bytes.now }
    ensures within { result ≤ length bytes.now }
{
    let mut len = 0;
    while len < bytes.len() && is_word_byte(bytes[len]) {
        len += 1;
    }
    len
}

/// Returns the index of the first byte, at `from` or after it, that is neither a blank nor in a
/// comment. If there is no such byte, returns the text's length. The function assumes that `from`
/// isn't inside a comment.
fn skip_blanks(text: &[u8], from: usize) -> usize
    requires { from ≤ length text.now }
    ensures within { result ≤ length text.now }
    ensures same { words result (drop result text.now) ≡ words from (drop from text.now) }
    ensures clear { IsClear (drop result text.now) }
{
    let mut place = from;
    let mut inside = false;
    while place < text.len() {
        let byte = text[place];
        if inside {
            inside = byte != b'\n';
        } else if byte == b'#' {
            inside = true;
        } else if !is_blank(byte) {
            break;
        }
        place += 1;
    }
    place
}

impl<'a> Lexer<'a> {
    ghost use Rattle.crush_units.specs.Lexer.{left, Nexts, IsFormed};

    fn new(text: &'a [u8]) -> Lexer<'a>
        ensures { left result ≡ words 0 text.now }
    {
        Lexer { text, place: 0 }
    }

    fn next(&mut self) -> Token<'a>
        ensures nexts { Nexts result (left self.old) (left self.new) }
        ensures formed { IsFormed result }
    {
        let place = skip_blanks(self.text, self.place);
        self.place = place;
        let (_, rest) = self.text.split_at(place);
        match rest {
            [] => Token::End { place },
            [byte, ..] => {
                if is_brace(*byte) {
                    self.place = place + 1;
                    let (text, _) = rest.split_at(1);
                    return Token::Word { place, text };
                }
                let len = run_length(rest);
                if len == 0 || len > LONGEST_NAME {
                    return Token::Bad { place };
                }
                self.place = place + len;
                let (text, _) = rest.split_at(len);
                Token::Word { place, text }
            }
        }
    }
}

/// Reads the words of a text one after the other. In contracts the value of a reader is the list of
/// the words that it has not read yet, with the reason why no word follows the last of them.
#[derive(Drop)]
pub struct Reader<'a> {
    lexer: Lexer<'a>,
}

impl<'a> Model for Reader<'a> {
    ghost use Rattle.crush_units.specs.Words.{Text};

    ghost Value = { Text };

    ghost use Rattle.crush_units.specs.Lexer.{left};

    ghost view = { λ r. left r.lexer };
}

impl<'a> Reader<'a> {
    ghost use Rattle.crush_units.specs.Lexer.{Nexts, IsFormed};

    /// Returns a reader that has read no word of the text yet.
    pub fn new(text: &'a [u8]) -> Reader<'a>
        ensures { result ≡ words 0 text.now }
    {
        Reader {
            lexer: Lexer::new(text),
        }
    }

    /// Reads the next word and moves past it. If the text has no further word, returns `End`. If
    /// the next byte that isn't skipped doesn't begin a valid word, returns `Bad`. After `End` or
    /// `Bad`, each later call returns the same. The cost is linear in the number of bytes that are
    /// read or skipped.
    pub fn next(&mut self) -> Token<'a>
        ensures nexts { Nexts result self.old self.new }
        ensures formed { IsFormed result }
        ensures shorter { length self.new.words ≤ length self.old.words }
    {
        self.lexer.next()
    }

    /// Moves past the next word if that word is `key`, and returns whether it is. If the next word
    /// is another word, or if there is no next word, nothing changes. The cost is linear in the
    /// number of bytes that are read or skipped.
    pub fn take_key(&mut self, key: &[u8]) -> bool
        ensures answer { result ≡ begins key.now self.old }
        ensures rest { self.new ≡ (if result then past self.old else self.old) }
        ensures shorter { IsTrue result → length self.new.words < length self.old.words }
    {
        let saved = self.lexer;
        if let Token::Word { text, .. } = self.lexer.next() {
            if text == key {
                return true;
            }
        }
        self.lexer = saved;
        false
    }
}
