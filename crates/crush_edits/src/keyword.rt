//! The commands of a script that make edits: the first word of each command, and the form of its
//! line.

ghost use Rattle.std.specs.Prelude.{◌≡◌, Some};
ghost use Rattle.crush_edits.specs.Keyword.{edit_keyword, keyword_form, keyword_of, keyword_word, placing_form, placing_word};

use crate::edit::{Edit, Placing};

/// The kind of a command in a script. The first word of a command's line says of which kind the
/// command is. Each command of one of these kinds makes one edit.
#[derive(Clone, Copy, Debug, PartialEq, Eq)]
pub enum Keyword {
    /// `add`, `create-or-move` or `set`.
    Place(Placing),
    /// `move`.
    Move,
    /// `swap-bucket`.
    SwapBucket,
    /// `reweight`.
    Reweight,
    /// `reweight-subtree`.
    ReweightSubtree,
    /// `rm`, which may also be written `remove`.
    Rm,
    /// `add-bucket`.
    AddBucket,
    /// `rename-bucket`.
    RenameBucket,
    /// `set-device-class`.
    SetDeviceClass,
    /// `rm-device-class`.
    RmDeviceClass,
}

impl Placing {
    /// Returns the first word of the command that places a device in this way.
    pub fn word(self) -> &'static str
        ensures { result.now ≡ placing_word self }
    {
        match self {
            Placing::Insert => "add",
            Placing::CreateOrMove => "create-or-move",
            Placing::Update => "set",
        }
    }

    fn form(self) -> &'static str
        ensures { result.now ≡ placing_form self }
    {
        match self {
            Placing::Insert => "add osd.N WEIGHT TYPE=NAME ..",
            Placing::CreateOrMove => "create-or-move osd.N WEIGHT TYPE=NAME ..",
            Placing::Update => "set osd.N WEIGHT TYPE=NAME ..",
        }
    }
}

impl Keyword {
    /// Returns the kind of the commands that begin with this word, or `None` if no command that
    /// makes an edit begins with it. Both `rm` and `remove` give [`Keyword::Rm`].
    #[tactic(auto, unfolding(crate::specs::Keyword::keyword_of))]
    pub fn read(word: &[u8]) -> Option<Keyword>
        ensures { result ≡ keyword_of word.now }
    {
        if word == b"add".as_slice() {
            Some(Keyword::Place(Placing::Insert))
        } else if word == b"set".as_slice() {
            Some(Keyword::Place(Placing::Update))
        } else if word == b"create-or-move".as_slice() {
            Some(Keyword::Place(Placing::CreateOrMove))
        } else if word == b"move".as_slice() {
            Some(Keyword::Move)
        } else if word == b"swap-bucket".as_slice() {
            Some(Keyword::SwapBucket)
        } else if word == b"reweight".as_slice() {
            Some(Keyword::Reweight)
        } else if word == b"reweight-subtree".as_slice() {
            Some(Keyword::ReweightSubtree)
        } else if word == b"rm".as_slice() || word == b"remove".as_slice() {
            Some(Keyword::Rm)
        } else if word == b"add-bucket".as_slice() {
            Some(Keyword::AddBucket)
        } else if word == b"rename-bucket".as_slice() {
            Some(Keyword::RenameBucket)
        } else if word == b"set-device-class".as_slice() {
            Some(Keyword::SetDeviceClass)
        } else if word == b"rm-device-class".as_slice() {
            Some(Keyword::RmDeviceClass)
        } else {
            None
        }
    }

    /// Returns the first word of the commands of this kind. For `Rm`, the word is `rm`, and not
    /// `remove`. If [`Keyword::read`] reads this word, it returns the same kind.
    #[tactic(auto, unfolding(crate::specs::Keyword::keyword_of))]
    pub fn word(self) -> &'static str
        ensures word { result.now ≡ keyword_word self }
        ensures read { keyword_of result.now ≡ Some self }
    {
        match self {
            Keyword::Place(how) => how.word(),
            Keyword::Move => "move",
            Keyword::SwapBucket => "swap-bucket",
            Keyword::Reweight => "reweight",
            Keyword::ReweightSubtree => "reweight-subtree",
            Keyword::Rm => "rm",
            Keyword::AddBucket => "add-bucket",
            Keyword::RenameBucket => "rename-bucket",
            Keyword::SetDeviceClass => "set-device-class",
            Keyword::RmDeviceClass => "rm-device-class",
        }
    }

    /// Returns the form that the line of a command of this kind has, such as `reweight NAME
    /// WEIGHT`.
    pub fn form(self) -> &'static str
        ensures { result.now ≡ keyword_form self }
    {
        match self {
            Keyword::Place(how) => how.form(),
            Keyword::Move => "move NAME TYPE=NAME ..",
            Keyword::SwapBucket => "swap-bucket NAME NAME",
            Keyword::Reweight => "reweight NAME WEIGHT",
            Keyword::ReweightSubtree => "reweight-subtree NAME WEIGHT",
            Keyword::Rm => "rm NAME",
            Keyword::AddBucket => "add-bucket NAME TYPE",
            Keyword::RenameBucket => "rename-bucket FROM TO",
            Keyword::SetDeviceClass => "set-device-class CLASS NAME",
            Keyword::RmDeviceClass => "rm-device-class NAME",
        }
    }
}

impl Edit {
    /// Returns the kind of the command that makes this edit in a script.
    pub fn keyword(&self) -> Keyword
        ensures { result ≡ edit_keyword self.now }
    {
        match self {
            Edit::Place { how, .. } => Keyword::Place(*how),
            Edit::Move { .. } => Keyword::Move,
            Edit::Swap { .. } => Keyword::SwapBucket,
            Edit::Reweight { .. } => Keyword::Reweight,
            Edit::ReweightSubtree { .. } => Keyword::ReweightSubtree,
            Edit::Remove { .. } => Keyword::Rm,
            Edit::AddBucket { .. } => Keyword::AddBucket,
            Edit::Rename { .. } => Keyword::RenameBucket,
            Edit::SetClass { .. } => Keyword::SetDeviceClass,
            Edit::RemoveClass { .. } => Keyword::RmDeviceClass,
        }
    }
}
