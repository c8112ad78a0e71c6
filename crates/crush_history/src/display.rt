//! Prints calls, replies and the lines of a history with `{}`.

ghost use Rattle.std.specs.Prelude.{◌≡◌, Some};
ghost use Rattle.crush_history.specs.HistoryText.{call_text, digit_of, line_head, line_words, refusal_words, reply_text, rest_text};

use crate::call::{Call, Edits, Reply};
use crush_edits::Refusal;
use std::fmt;

/// A line of a history: `{}` prints it as `# NUMBER OPERATOR CALL = REPLY`, without a line feed.
///
/// The line begins with `#`, so it is a comment in the text of a map. `docs/user/FORMATS.md`
/// describes the form of the line.
#[derive(Clone, Copy)]
pub struct Line<'a> {
    /// The number of the call in the history, from 1.
    pub number: u32,
    /// The name of the operator that made the call.
    pub operator: &'a str,
    /// The call that the operator made.
    pub call: &'a Call,
    /// The reply to the call.
    pub reply: Reply,
}

/// The start of a line, before the call: `# NUMBER OPERATOR `.
#[derive(Clone, Copy)]
struct Head<'a> {
    number: u32,
    operator: &'a str,
}

/// A refusal. As in a line of a history, `{}` prints the refusal's name, a space, and its Linux
/// error number (`errno`). An example is `NoSuchItem 2`.
#[derive(Clone, Copy)]
struct RefusalWords(Refusal);

/// Prints each edit of the batch followed by ` ; `, and then `commit`. The start of the batch,
/// which is `begin ; ` or `begin at N ; `, isn't printed.
impl fmt::Display for Edits {
    ghost output = { λ edits. Some (rest_text edits) };

    fn fmt<W: fmt::Write>(&self, f: &mut fmt::Formatter<W>) -> fmt::Result {
        let edits = self.as_slice();
        for edit in edits {
            write!(f, "{edit} ; ")?;
        }
        f.write_str("commit")
    }
}

/// Prints the call on one line, in the form of a script's commands. In a batch, ` ; ` replaces each
/// line feed of the script. Weights have five decimals.
impl fmt::Display for Call {
    ghost output = { λ call. Some (call_text call) };

    fn fmt<W: fmt::Write>(&self, f: &mut fmt::Formatter<W>) -> fmt::Result {
        match self {
            Call::One(edit) => write!(f, "{edit}"),
            Call::Batch(edits) => write!(f, "begin ; {edits}"),
            Call::Guarded { seen, edits } => {
                write!(f, "begin at {seen} ; ")?;
                write!(f, "{edits}")
            }
        }
    }
}

impl fmt::Display for RefusalWords {
    ghost output = { λ words. Some (refusal_words words.0) };

    fn fmt<W: fmt::Write>(&self, f: &mut fmt::Formatter<W>) -> fmt::Result {
        let name = self.0.name();
        let error = self.0.error();
        write!(f, "{name} {error}")
    }
}

/// Returns `1` for true and `0` for false.
fn digit_of(is_true: bool) -> &'static str
    ensures { result.now ≡ digit_of is_true }
{
    if is_true { "1" } else { "0" }
}

/// Prints the reply in the form that it has in a line of a history, after ` = `. For example,
/// prints `done changed 1 made 0`.
impl fmt::Display for Reply {
    ghost output = { λ reply. Some (reply_text reply) };

    #[tactic(auto, unfolding(crate::specs::HistoryText::reply_text))]
    fn fmt<W: fmt::Write>(&self, f: &mut fmt::Formatter<W>) -> fmt::Result {
        match *self {
            Reply::Done(done) => {
                let changed = digit_of(done.changed);
                let made = done.made;
                write!(f, "done changed {changed} made {made}")
            }
            Reply::Dones(dones) => {
                let edits = dones.edits;
                let changed = dones.changed;
                let made = dones.made;
                write!(f, "dones {edits} changed {changed} made {made}")
            }
            Reply::Refused(refusal) => {
                let words = RefusalWords(refusal);
                write!(f, "refused {words}")
            }
            Reply::BatchRefused(index, refusal) => {
                let words = RefusalWords(refusal);
                write!(f, "refused at {index} {words}")
            }
            Reply::Stale(changes) => write!(f, "refused Stale 11 changes {changes}"),
        }
    }
}

impl fmt::Display for Head<'_> {
    ghost output = { λ head. Some (line_head head.number head.operator.now) };

    #[tactic(auto, unfolding(crate::specs::HistoryText::line_head))]
    fn fmt<W: fmt::Write>(&self, f: &mut fmt::Formatter<W>) -> fmt::Result {
        let number = self.number;
        let operator = self.operator;
        write!(f, "# {number} {operator} ")
    }
}

impl fmt::Display for Line<'_> {
    ghost output = { λ line. Some (line_words line.number line.operator.now line.call.now
        line.reply) };

    fn fmt<W: fmt::Write>(&self, f: &mut fmt::Formatter<W>) -> fmt::Result {
        let head = Head {
            number: self.number,
            operator: self.operator,
        };
        let call = self.call;
        let reply = self.reply;
        write!(f, "{head}{call} = {reply}")
    }
}
