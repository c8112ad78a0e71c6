//! Writes the reason why a line of a script is rejected if its first word isn't a command. If this
//! word is similar to a command, the reason suggests the command.

ghost use Rattle.std.specs.Prelude.{◌≡◌, ◌++◌, OnOk, map as each};
ghost use Rattle.std.specs.Option.{option_map};
ghost use Rattle.crush_reasons.specs.Commands.{first_command, is_near_command, is_of_ceph, meant_text, near_command, no_command, no_word};

use crate::near::{is_one_off, is_swapped};
use crate::shown::push_told;
use crate::words::push_all;
use crush_edits::{Keyword, Placing};
use crush_script::placed_word;
use std::alloc::AllocError;

fn is_near_command(a: &[u8], b: &[u8]) -> bool
    ensures { result ≡ is_near_command a.now b.now }
{
    is_one_off(a, b) || is_swapped(a, b)
}

#[tactic(auto, unfolding(crate::specs::Commands::first_command))]
fn first_command(word: &[u8], commands: &[&'static str]) -> Option<&'static str>
    ensures { option_map (λ near. near.now) result
        ≡ first_command word.now (each (λ command. command.now) commands.now) }
{
    for command in commands {
        if is_near_command(word, command.as_bytes()) {
            return Some(*command);
        }
    }
    None
}

/// Returns the first command of the list below that is similar to a word: at most one byte differs,
/// one byte is missing or extra, or two neighbouring bytes are exchanged. Returns `None` if no
/// command of the list is similar.
fn near_command(word: &[u8]) -> Option<&'static str>
    ensures { option_map (λ near. near.now) result ≡ near_command word.now }
{
    first_command(
        word,
        &[
            Keyword::Place(Placing::Insert).word(),
            Keyword::Place(Placing::Update).word(),
            Keyword::Place(Placing::CreateOrMove).word(),
            Keyword::Move.word(),
            Keyword::SwapBucket.word(),
            Keyword::Reweight.word(),
            Keyword::ReweightSubtree.word(),
            Keyword::Rm.word(),
            "remove",
            Keyword::AddBucket.word(),
            Keyword::RenameBucket.word(),
            Keyword::SetDeviceClass.word(),
            Keyword::RmDeviceClass.word(),
            "begin",
            "commit",
        ],
    )
}

#[tactic(auto, unfolding(crate::specs::Commands::meant_text))]
fn push_meant(command: Option<&str>, text: &mut Vec<u8>) -> Result<(), AllocError>
    ensures { OnOk result (text.new.items
        ≡ text.old.items ++ meant_text (option_map (λ near. near.now) command.entry)) }
{
    match command {
        None => text.extend_from_slice(b"see --help"),
        Some(command) => push_all(
            &[
                b"did you mean ".as_slice(),
                command.as_bytes(),
                b"?".as_slice(),
            ],
            text,
        ),
    }
}

fn is_of_ceph(line: &[u8]) -> bool
    ensures { result ≡ is_of_ceph line.now }
{
    placed_word(line, 0).text == b"ceph".as_slice()
        && placed_word(line, 1).text == b"osd".as_slice()
        && placed_word(line, 2).text == b"crush".as_slice()
}

#[tactic(auto, unfolding(crate::specs::Commands::no_word))]
fn push_no_word(word: &[u8], text: &mut Vec<u8>) -> Result<(), AllocError>
    ensures { OnOk result (text.new.items ≡ text.old.items ++ no_word word.now) }
{
    push_told(word, text)?;
    text.extend_from_slice(b" is not a command: ")?;
    push_meant(near_command(word), text)
}

/// The first word of `line` isn't a command. Appends the reason for this fault. If the line begins
/// with `ceph osd crush`, the reason says to leave out these words.
pub(crate) fn push_no_command(line: &[u8], text: &mut Vec<u8>) -> Result<(), AllocError>
    ensures { OnOk result (text.new.items ≡ text.old.items ++ no_command line.now) }
{
    if is_of_ceph(line) {
        return text.extend_from_slice(b"leave out `ceph osd crush`");
    }
    push_no_word(placed_word(line, 0).text, text)
}
