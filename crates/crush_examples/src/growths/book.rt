//! Commits the calls of a job to a `Book`, which is a map with the history of its calls. To
//! *commit* a call is to make the call and to add it to the history. The memory for the book's maps
//! comes from an allocator that refuses one request. The parameter `answers` counts the operations
//! that report that memory ran out.

ghost use Rattle.std.specs.Prelude.{◌≡◌, ◌<◌, IfOk};
ghost use Rattle.crush_units.specs.declared.limits.TheConstants.{MOST_OPERATORS};

use crate::growths::job::Parts;
use crate::growths::map::{fewest_requests, is_written, text_of};
use anyhow::{Context, ensure};
use crush_editor::{Book, MapGauge, OpenFault, Started, SubmitFault};
use crush_history::{Call, Entry, Line, Script};
use crush_map::CrushMap;
use crush_units::limits::MOST_OPERATORS;
use std::alloc::{Allocator, Global};
use std::io::Write;

/// Commits the calls of all scripts to a book of the map. Returns how many requests for memory such
/// a run makes at least ([`fewest_requests`]). Fails if the text of the book's map, followed by the
/// lines of the book's history, isn't the job's known output.
pub fn run_by_book<A: Allocator + Clone>(
    alloc: Global,
    map: CrushMap<A>,
    scripts: &[Script],
    parts: &Parts,
    answers: &mut usize,
) -> anyhow::Result<usize> {
    let (gauge, mut book) = open_again(alloc, map, parts.printed, answers)?;
    let committing = Committing {
        alloc,
        gauge: &gauge,
        scripts,
    };
    committing.commit_all(&mut book, answers)?;
    ensure!(
        is_book_written(alloc, &book, scripts, parts.output)?,
        "another output of a book"
    );
    Ok(fewest_requests(book.map()))
}

/// Creates a book of the map. If memory runs out, the failed call gives the map back, and this
/// function tries once more with this map. `printed` is the text of the map.
fn open_again<A: Allocator + Clone>(
    alloc: Global,
    map: CrushMap<A>,
    printed: &[u8],
    answers: &mut usize,
) -> anyhow::Result<(MapGauge, Book<A>)>
    ensures { IfOk result (λ opened. opened.1.table ≡ opened.0.table.shared.table_id) }
{
    match Started::new(alloc, map, 1) {
        Ok(started) => Ok(started.into_book()),
        Err(OpenFault { map }) => {
            *answers = answers.saturating_add(1);
            open_returned(alloc, map, printed)
        }
    }
}

/// Checks that a map that a failed call has given back is unchanged, and creates a book of this
/// map. `printed` is the text that the map must have.
fn open_returned<A: Allocator + Clone>(
    alloc: Global,
    map: CrushMap<A>,
    printed: &[u8],
) -> anyhow::Result<(MapGauge, Book<A>)>
    ensures { IfOk result (λ opened. opened.1.table ≡ opened.0.table.shared.table_id) }
{
    ensure!(
        is_written(alloc, &map, &[], printed)?,
        "another map came back"
    );
    let started = Started::new(alloc, map, 1).ok().context("no memory")?;
    Ok(started.into_book())
}

#[derive(Clone, Copy)]
struct Committing<'c> {
    alloc: Global,
    gauge: &'c MapGauge,
    scripts: &'c [Script],
}

impl Committing<'_> {
    fn commit_all<A: Allocator + Clone>(
        &self,
        book: &mut Book<A>,
        answers: &mut usize,
    ) -> anyhow::Result<()>
        requires { book.old.table ≡ self.now.gauge.now.table.shared.table_id }
    {
        for (operator, script) in self.scripts.iter().enumerate() {
            ensure!(operator < MOST_OPERATORS, "too many operators");
            for call in script.calls.as_slice() {
                let lacked = self.commit_again(book, operator, call)?;
                *answers = answers.saturating_add(usize::from(lacked));
            }
        }
        Ok(())
    }

    /// Commits a call, and returns whether memory ran out. If memory ran out, checks that the book
    /// is unchanged, and commits the call again.
    fn commit_again<A: Allocator + Clone>(
        &self,
        book: &mut Book<A>,
        operator: usize,
        call: &Call,
    ) -> anyhow::Result<bool>
        requires operator { operator < MOST_OPERATORS }
        requires gauge { book.old.table ≡ self.now.gauge.now.table.shared.table_id }
        ensures { book.new.table ≡ book.old.table }
    {
        let before = book_text(self.alloc, book, self.scripts)?;
        match book.commit(self.alloc, self.gauge, operator, call) {
            Ok(_reply) => return Ok(false),
            Err(fault) => ensure!(fault == SubmitFault::OutOfMemory, "a full history"),
        }
        ensure!(
            is_book_written(self.alloc, book, self.scripts, before.as_slice())?,
            "another book after memory ran out"
        );
        let reply = book.commit(self.alloc, self.gauge, operator, call);
        ensure!(reply.is_ok(), "no memory");
        Ok(true)
    }
}

fn book_text<A: Allocator>(
    alloc: Global,
    book: &Book<A>,
    scripts: &[Script],
) -> anyhow::Result<Vec<u8>> {
    let mut text = text_of(alloc, book.map())?;
    write_lines(book.history(), scripts, &mut text)?;
    Ok(text)
}

fn write_lines(history: &[Entry], scripts: &[Script], text: &mut Vec<u8>) -> anyhow::Result<()> {
    let mut number = 0u32;
    for entry in history {
        let script = scripts.get(entry.operator).context("no such operator")?;
        number = number.saturating_add(1);
        let line = Line {
            number,
            operator: script.name.as_str(),
            call: &entry.call,
            reply: entry.reply,
        };
        write!(text, "{line}\n")?;
    }
    Ok(())
}

fn is_book_written<A: Allocator>(
    alloc: Global,
    book: &Book<A>,
    scripts: &[Script],
    text: &[u8],
) -> anyhow::Result<bool> {
    let written = book_text(alloc, book, scripts)?;
    Ok(written.as_slice() == text)
}
