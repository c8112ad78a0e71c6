//! The words with which the lines of a section begin, and the forms of these lines.

ghost use Rattle.std.specs.Prelude.{◌≡◌};

use crush_edits::Keyword;

/// The meaning of the first word of a line of a section.
#[derive(Clone, Copy, Debug, PartialEq, Eq)]
pub enum Form {
    /// `%operator` begins a section.
    Operator,
    /// `begin` opens a batch.
    Begin,
    /// `commit` ends a batch.
    Commit,
    /// The word is a command for one edit.
    Edit(Keyword),
}

impl Form {
    ghost use Rattle.crush_script.specs.Keyword.{form_of, form_text};

    /// Returns the meaning of `first`, the first word of a line of a section. Returns `None` if no
    /// such line may begin with this word.
    #[tactic(auto, unfolding(crate::specs::Keyword::form_of))]
    pub fn read(first: &[u8]) -> Option<Form>
        ensures { result ≡ form_of first.now }
    {
        if first == b"%operator".as_slice() {
            Some(Form::Operator)
        } else if first == b"begin".as_slice() {
            Some(Form::Begin)
        } else if first == b"commit".as_slice() {
            Some(Form::Commit)
        } else {
            Some(Form::Edit(Keyword::read(first)?))
        }
    }

    /// Returns the form of the line as text, for example `reweight NAME WEIGHT`. A line that begins
    /// with `begin` can have two forms, `begin` and `begin at N`. For such a line, returns the
    /// longer form.
    pub fn text(self) -> &'static str
        ensures { result.now ≡ form_text self }
    {
        match self {
            Form::Operator => "%operator NAME",
            Form::Begin => "begin at N",
            Form::Commit => "commit",
            Form::Edit(keyword) => keyword.form(),
        }
    }
}
