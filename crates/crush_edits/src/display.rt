//! Implements printing with `{}`. Pairs, locations and edits are printed in the form that they have
//! in the commands of a script.

ghost use Rattle.std.specs.Prelude.{Some};
ghost use Rattle.crush_edits.specs.EditText.{edit_text, pair_word, pairs_text};

use crate::edit::Edit;
use crate::location::{Location, Pair};
use std::fmt;

/// Prints `TYPE=NAME`, such as `host=h1`.
impl fmt::Display for Pair {
    ghost output = { λ pair. Some (pair_word pair) };

    fn fmt<W: fmt::Write>(&self, f: &mut fmt::Formatter<W>) -> fmt::Result {
        let kind = &self.kind;
        let name = &self.name;
        write!(f, "{kind}={name}")
    }
}

/// Prints each pair after a space, such as ` host=h1 root=default`, and nothing if there are no
/// pairs.
impl fmt::Display for Location {
    ghost output = { λ at. Some (pairs_text at) };

    fn fmt<W: fmt::Write>(&self, f: &mut fmt::Formatter<W>) -> fmt::Result {
        let pairs = self.pairs();
        for pair in pairs {
            write!(f, " {pair}")?;
        }
        Ok(())
    }
}

/// Prints the command that makes the edit in a script, such as `reweight osd.1 0.50000`. Weights
/// have five digits after the point. The id in an `Edit::Place` isn't printed: the parser of
/// scripts takes this id from the device's name, which must be `osd.N`.
impl fmt::Display for Edit {
    ghost output = { λ edit. Some (edit_text edit) };

    fn fmt<W: fmt::Write>(&self, f: &mut fmt::Formatter<W>) -> fmt::Result {
        let word = self.keyword().word();
        match self {
            Edit::Place {
                name,
                weight,
                at,
                ..
            } => {
                write!(f, "{word} {name} {weight}")?;
                write!(f, "{at}")
            }
            Edit::Move { name, at } => {
                write!(f, "{word} {name}")?;
                write!(f, "{at}")
            }
            Edit::Swap { a, b } => write!(f, "{word} {a} {b}"),
            Edit::Reweight { name, weight } => write!(f, "{word} {name} {weight}"),
            Edit::ReweightSubtree { name, weight } => write!(f, "{word} {name} {weight}"),
            Edit::Remove { name } => write!(f, "{word} {name}"),
            Edit::AddBucket { name, kind } => write!(f, "{word} {name} {kind}"),
            Edit::Rename { from, to } => write!(f, "{word} {from} {to}"),
            Edit::SetClass { name, class } => write!(f, "{word} {class} {name}"),
            Edit::RemoveClass { name } => write!(f, "{word} {name}"),
        }
    }
}
