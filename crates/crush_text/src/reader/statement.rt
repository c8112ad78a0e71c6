//! Reads all statements, one after the other.

ghost use Rattle.std.specs.Prelude.{◌≡◌, Ok, Err, false, if◌then◌else◌, IfOk};
ghost use Rattle.crush_text.specs.declared.fault.TextFaultKind.TheVariants.{TooMany};
ghost use Rattle.crush_text.specs.declared.expected.Expected.TheVariants.{Statement};
ghost use Rattle.crush_text.specs.Role.{opening};
ghost use Rattle.crush_text.specs.Grammar.{statement};
ghost use Rattle.crush_text.specs.Tests.{is_out_of_place, comes_first};
ghost use Rattle.crush_text.specs.Flow.{arrive, placed};
ghost use Rattle.crush_text.specs.ReadsLines.{IsIdle, ReadsOn};
ghost use Rattle.crush_text.specs.ReadsStatements.{behind, ReadsNext, ReadsAll, Opens, CanOpen};

use crate::expected::{Expected, Optional};
use crate::fault::{TextFault, TextFaultKind};
use crate::reader::MapReader;
use crate::reader::word::PlacedWord;
use crate::statement_kind::StatementKind;
use crush_units::Token;
use std::alloc::Allocator;

/// What the reader needs to know about the text before a statement, to read this statement.
#[derive(Clone, Copy)]
pub(crate) struct Before {
    /// Whether a bucket or a rule was read before the statement. If so, only buckets and rules may
    /// follow.
    pub(crate) late: bool,
    /// The optional part that could still follow, because the words before the statement have left
    /// it out.
    pub(crate) or: Optional,
}

impl Before {
    /// Returns what the grammar expects as the first word of a statement.
    pub(crate) fn expected(self) -> Expected
        ensures { result ≡ Statement self.late self.or }
    {
        Expected::Statement {
            late: self.late,
            or: self.or,
        }
    }
}

impl<'a, A: Allocator + Clone> MapReader<'a, A> {
    /// Reads all statements up to the end of the text.
    pub(crate) fn statements(&mut self) -> Result<(), TextFault>
        requires { IsIdle self.old.builder }
        ensures { ReadsAll self.old self.new result }
    {
        let mut before = Before {
            late: false,
            or: Optional::Nothing,
        };
        'statements: while let Some(more) = self.next_statement(before)? {
            before = more;
        }
        Ok(())
    }

    /// Reads the next statement. `before` describes the text before this statement. Returns a
    /// [`Before`] for the statement that follows. At the end of the text, returns `None`.
    fn next_statement(&mut self, before: Before) -> Result<Option<Before>, TextFault>
        requires { IsIdle self.old.builder }
        ensures { ReadsNext before self.old self.new result }
    {
        match self.text.next() {
            Token::Word { place, text } => {
                let opening = self.opening_of(PlacedWord { place, text }, before)?;
                let next = self.statement(opening, text)?;
                Ok(Some(next))
            }
            Token::End { .. } => Ok(None),
            Token::Bad { place } => Err(TextFault {
                kind: TextFaultKind::BadWord,
                place,
                expected: Expected::Statement {
                    late: before.late,
                    or: before.or,
                },
            }),
        }
    }

    /// Reads the rest of a statement. Its first word, `word`, was read before. Returns a [`Before`]
    /// for the next statement.
    fn statement(&mut self, opening: StatementKind, word: &[u8]) -> Result<Before, TextFault>
        requires { CanOpen opening word.now self.old.builder }
        ensures { ReadsOn (λ d. arrive d self.old.text.words (statement d opening)) behind
            self.old self.new result }
    {
        match opening {
            StatementKind::Tunable => {
                self.tunable()?;
                Ok(Before {
                    late: false,
                    or: Optional::Nothing,
                })
            }
            StatementKind::Device => {
                let or = self.device()?;
                Ok(Before { late: false, or })
            }
            StatementKind::Type => {
                self.kind()?;
                Ok(Before {
                    late: false,
                    or: Optional::Nothing,
                })
            }
            StatementKind::Bucket(_) => {
                self.bucket(word)?;
                Ok(Before {
                    late: true,
                    or: Optional::Nothing,
                })
            }
            StatementKind::Rule => {
                self.rule()?;
                Ok(Before {
                    late: true,
                    or: Optional::Nothing,
                })
            }
        }
    }

    /// Returns the kind of the statement that the word begins. Fails if no statement can begin with
    /// this word here, or if the map already has the maximum number of statements of this kind.
    fn opening_of(&self, word: PlacedWord<'_>, before: Before) -> Result<StatementKind, TextFault>
        ensures { Opens word.entry before self.now.builder result }
    {
        if is_out_of_place(word, before.late) {
            return Err(word.fault(TextFaultKind::Unexpected, before.expected()));
        }
        if word.is(b"tunable") {
            return with_room(
                word,
                before,
                StatementKind::Tunable,
                self.builder.is_full_of_tunables(),
            );
        }
        if word.is(b"device") {
            return with_room(
                word,
                before,
                StatementKind::Device,
                self.builder.is_full_of_devices(),
            );
        }
        if word.is(b"type") {
            return with_room(
                word,
                before,
                StatementKind::Type,
                self.builder.is_full_of_kinds(),
            );
        }
        if word.is(b"rule") {
            return with_room(
                word,
                before,
                StatementKind::Rule,
                self.builder.is_full_of_rules(),
            );
        }
        if word.is(b"choose_args") {
            return Err(word.fault(TextFaultKind::LeftOut, before.expected()));
        }
        match self.builder.kind_number(word.text) {
            Some(kind) if self.builder.is_bucket_kind(kind) => {
                with_room(
                    word,
                    before,
                    StatementKind::Bucket(kind),
                    self.builder.is_full_of_buckets(),
                )
            }
            _ => Err(word.fault(TextFaultKind::UnknownType, before.expected())),
        }
    }
}

/// Whether the word is a brace or `class`, or comes too late: tunables, devices and types must come
/// before the first bucket or rule. `late` says whether a bucket or a rule was read before.
pub(crate) fn is_out_of_place(word: PlacedWord<'_>, late: bool) -> bool
    ensures { result ≡ is_out_of_place late word.entry.text.now }
{
    word.is(b"{") || word.is(b"}") || word.is(b"class") || (late && comes_first(word))
}

/// Whether the word is `tunable`, `device` or `type`. The statements that begin with these words
/// must come before the first bucket or rule.
pub(crate) fn comes_first(word: PlacedWord<'_>) -> bool
    ensures { result ≡ comes_first word.entry.text.now }
{
    word.is(b"tunable") || word.is(b"device") || word.is(b"type")
}

/// Returns `opening`, the kind of the statement that the word begins. `full` says whether the map
/// already has the maximum number of statements of this kind. If `full` is true, fails with
/// `TooMany` at the word.
fn with_room(
    word: PlacedWord<'_>,
    before: Before,
    opening: StatementKind,
    full: bool,
) -> Result<StatementKind, TextFault>
    ensures opens { result ≡ placed word.entry.place (Statement before.late before.or)
        (if full then Err TooMany else Ok opening) }
    ensures room { IfOk result (λ o. (o ≡ opening) × (full ≡ false)) }
{
    if full {
        return Err(word.fault(TextFaultKind::TooMany, before.expected()));
    }
    Ok(opening)
}
