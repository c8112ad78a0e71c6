//! Parses the words of a line of a section: `%operator NAME`, `begin`, `commit`, or a command for
//! an edit.

ghost use Rattle.std.specs.Prelude.{◌≡◌, ◌≤◌};
ghost use Rattle.crush_script.specs.ReadsAs.{ReadsAs, ReadsAndLeaves};
ghost use Rattle.crush_script.specs.Command.{command, misfit, operator, name_at, weight_at, end_at, with_pair, location_at, placing_at, located_at, one_name_at, two_names_at, name_and_weight_at, edit_of, edit_at, begin_at, count_at};

use crate::fault::{Due, Misfit};
use crate::line::LineWords;
use crate::word::{count_of, cut_pair};
use crush_edits::{Edit, Keyword, Location, LocationFault};
use crush_history::device_named;
use crush_units::{DeviceId, Name, NameFault, Weight};
use std::alloc::Global;

/// Why a line can't be parsed.
#[derive(Clone, Copy)]
pub(crate) enum LineFault {
    /// A word is missing, or isn't what the form of the line requires.
    Word(Misfit),
    /// The line begins with `%`, but its first word isn't `%operator`.
    NoOperator,
    NoSuchCommand,
    OutOfMemory,
}

/// A parsed line of a section, except for the `%operator` line with which the section begins.
#[derive(Drop)]
pub(crate) enum Command {
    /// The line has no words.
    Nothing,
    Edit(Edit),
    /// The line is `begin`, or it is `begin at N` with this number N. A batch that begins with
    /// `begin at N` is applied only if exactly N earlier calls have changed the map.
    Begin(Option<u32>),
    Commit,
}

#[derive(Drop)]
pub(crate) struct Placing {
    pub(crate) device: DeviceId,
    pub(crate) name: Name<Global>,
    pub(crate) weight: Weight,
    pub(crate) at: Location,
}

fn misfit(word: usize, due: Due) -> LineFault
    ensures { result ≡ misfit word due }
{
    LineFault::Word(Misfit { word, due })
}

/// Appends the pair that the word spells to the location `at`. `first` is the index of the
/// location's first pair among the words of the line, from 0. Fails if the word isn't a pair
/// `TYPE=NAME`, if the location already has 16 pairs, or if memory runs out.
#[tactic(auto, unfolding(crate::specs::Command::with_pair))]
fn with_pair(first: usize, at: Location, word: &[u8]) -> Result<Location, LineFault>
    requires { first ≤ 3 }
    ensures { ReadsAs result (with_pair first at word.now) }
{
    let mut at = at;
    let index = first + at.pairs().len();
    let (kind, name) = cut_pair(word);
    match at.push(kind, name) {
        Ok(()) => Ok(at),
        Err(LocationFault::TooMany) => Err(misfit(index, Due::NoMorePairs)),
        Err(LocationFault::BadName) => Err(misfit(index, Due::Pair)),
        Err(LocationFault::OutOfMemory) => Err(LineFault::OutOfMemory),
    }
}

impl LineWords<'_> {
    /// Reads the next word as a name. `due` is what the form of the line requires at this word. The
    /// fault names `due` if the word is missing or isn't a name. In this method and the following
    /// ones, `index` is the index of the word in the line, from 0.
    #[tactic(auto, unfolding(crate::specs::Command::name_at))]
    fn name(&mut self, alloc: Global, index: usize, due: Due) -> Result<Name<Global>, LineFault>
        ensures { ReadsAndLeaves result self.new (name_at index due self.old) }
    {
        let Some(word) = self.next() else {
            return Err(misfit(index, due));
        };
        match Name::read(alloc, word) {
            Ok(name) => Ok(name),
            Err(NameFault::OutOfMemory) => Err(LineFault::OutOfMemory),
            Err(_) => Err(misfit(index, due)),
        }
    }

    #[tactic(auto, unfolding(crate::specs::Command::weight_at))]
    fn weight(&mut self, index: usize) -> Result<Weight, LineFault>
        ensures { ReadsAndLeaves result self.new (weight_at index self.old) }
    {
        let Some(word) = self.next() else {
            return Err(misfit(index, Due::Weight));
        };
        match Weight::read_bytes(word) {
            Ok(weight) => Ok(weight),
            Err(_) => Err(misfit(index, Due::Weight)),
        }
    }

    /// Returns `value` if the line has no further word. Otherwise fails, because the line must end
    /// before the word at `index`.
    #[tactic(auto, unfolding(crate::specs::Command::end_at))]
    fn end<T: Drop>(&mut self, index: usize, value: T) -> Result<T, LineFault>
        ensures { ReadsAs result (end_at index value self.old) }
    {
        match self.next() {
            None => Ok(value),
            Some(_) => Err(misfit(index, Due::End)),
        }
    }

    /// Reads all words that are left in the line, each as a pair `TYPE=NAME`. `first` is how many
    /// words of the line come before these words.
    #[tactic(auto, unfolding(crate::specs::Command::location_at, crate::specs::Command::with_pairs))]
    fn location(&mut self, alloc: Global, first: usize) -> Result<Location, LineFault>
        requires { first ≤ 3 }
        ensures { ReadsAs result (location_at first self.old) }
    {
        let mut at = Location::new(alloc);
        while let Some(word) = self.next() {
            at = with_pair(first, at, word)?;
        }
        Ok(at)
    }

    #[tactic(auto, unfolding(crate::specs::Command::placing_at))]
    fn placing(&mut self, alloc: Global) -> Result<Placing, LineFault>
        ensures { ReadsAs result (placing_at self.old) }
    {
        let name = self.name(alloc, 1, Due::Device)?;
        let Some(device) = device_named(name.as_bytes()) else {
            return Err(misfit(1, Due::Device));
        };
        let weight = self.weight(2)?;
        let at = self.location(alloc, 3)?;
        Ok(Placing {
            device,
            name,
            weight,
            at,
        })
    }

    #[tactic(auto, unfolding(crate::specs::Command::located_at))]
    fn located(&mut self, alloc: Global) -> Result<(Name<Global>, Location), LineFault>
        ensures { ReadsAs result (located_at self.old) }
    {
        let name = self.name(alloc, 1, Due::Name)?;
        let at = self.location(alloc, 2)?;
        Ok((name, at))
    }

    #[tactic(auto, unfolding(crate::specs::Command::one_name_at))]
    fn one_name(&mut self, alloc: Global) -> Result<Name<Global>, LineFault>
        ensures { ReadsAs result (one_name_at self.old) }
    {
        let name = self.name(alloc, 1, Due::Name)?;
        self.end(2, name)
    }

    #[tactic(auto, unfolding(crate::specs::Command::two_names_at))]
    fn two_names(&mut self, alloc: Global) -> Result<(Name<Global>, Name<Global>), LineFault>
        ensures { ReadsAs result (two_names_at self.old) }
    {
        let first = self.name(alloc, 1, Due::Name)?;
        let second = self.name(alloc, 2, Due::Name)?;
        self.end(3, (first, second))
    }

    #[tactic(auto, unfolding(crate::specs::Command::name_and_weight_at))]
    fn name_and_weight(&mut self, alloc: Global) -> Result<(Name<Global>, Weight), LineFault>
        ensures { ReadsAs result (name_and_weight_at self.old) }
    {
        let name = self.name(alloc, 1, Due::Name)?;
        let weight = self.weight(2)?;
        self.end(3, (name, weight))
    }

    fn edit_of(&mut self, alloc: Global, keyword: Keyword) -> Result<Edit, LineFault>
        ensures { ReadsAs result (edit_of keyword self.old) }
    {
        match keyword {
            Keyword::Place(how) => {
                let Placing {
                    device,
                    name,
                    weight,
                    at,
                } = self.placing(alloc)?;
                Ok(Edit::Place {
                    how,
                    device,
                    name,
                    weight,
                    at,
                })
            }
            Keyword::Move => {
                let (name, at) = self.located(alloc)?;
                Ok(Edit::Move { name, at })
            }
            Keyword::SwapBucket => {
                let (a, b) = self.two_names(alloc)?;
                Ok(Edit::Swap { a, b })
            }
            Keyword::Reweight => {
                let (name, weight) = self.name_and_weight(alloc)?;
                Ok(Edit::Reweight { name, weight })
            }
            Keyword::ReweightSubtree => {
                let (name, weight) = self.name_and_weight(alloc)?;
                Ok(Edit::ReweightSubtree { name, weight })
            }
            Keyword::Rm => {
                let name = self.one_name(alloc)?;
                Ok(Edit::Remove { name })
            }
            Keyword::AddBucket => {
                let (name, kind) = self.two_names(alloc)?;
                Ok(Edit::AddBucket { name, kind })
            }
            Keyword::RenameBucket => {
                let (from, to) = self.two_names(alloc)?;
                Ok(Edit::Rename { from, to })
            }
            Keyword::SetDeviceClass => {
                let (class, name) = self.two_names(alloc)?;
                Ok(Edit::SetClass { name, class })
            }
            Keyword::RmDeviceClass => {
                let name = self.one_name(alloc)?;
                Ok(Edit::RemoveClass { name })
            }
        }
    }

    #[tactic(auto, unfolding(crate::specs::Command::edit_at))]
    fn edit(&mut self, alloc: Global, first: &[u8]) -> Result<Edit, LineFault>
        ensures { ReadsAs result (edit_at first.now self.old) }
    {
        match Keyword::read(first) {
            Some(keyword) => self.edit_of(alloc, keyword),
            None => Err(LineFault::NoSuchCommand),
        }
    }

    #[tactic(auto, unfolding(crate::specs::Command::count_at))]
    fn count(&mut self, index: usize) -> Result<u32, LineFault>
        ensures { ReadsAndLeaves result self.new (count_at index self.old) }
    {
        let Some(word) = self.next() else {
            return Err(misfit(index, Due::Changes));
        };
        match count_of(word) {
            Some(count) => Ok(count),
            None => Err(misfit(index, Due::Changes)),
        }
    }

    #[tactic(auto, unfolding(crate::specs::Command::begin_at))]
    fn begin(&mut self) -> Result<Command, LineFault>
        ensures { ReadsAs result (begin_at self.old) }
    {
        let Some(word) = self.next() else {
            return Ok(Command::Begin(None));
        };
        if word != b"at".as_slice() {
            return Err(misfit(1, Due::At));
        }
        let seen = self.count(2)?;
        self.end(3, Command::Begin(Some(seen)))
    }

    #[tactic(auto, unfolding(crate::specs::Command::command))]
    pub(crate) fn command(&mut self, alloc: Global) -> Result<Command, LineFault>
        ensures { ReadsAs result (command self.old) }
    {
        let Some(first) = self.next() else {
            return Ok(Command::Nothing);
        };
        if first == b"begin".as_slice() {
            return self.begin();
        }
        if first == b"commit".as_slice() {
            return self.end(1, Command::Commit);
        }
        let edit = self.edit(alloc, first)?;
        Ok(Command::Edit(edit))
    }

    #[tactic(auto, unfolding(crate::specs::Command::operator, crate::specs::Command::one_name_at))]
    pub(crate) fn operator(&mut self, alloc: Global) -> Result<Name<Global>, LineFault>
        ensures { ReadsAs result (operator self.old) }
    {
        let Some(first) = self.next() else {
            return Err(LineFault::NoOperator);
        };
        if first != b"%operator".as_slice() {
            return Err(LineFault::NoOperator);
        }
        self.one_name(alloc)
    }
}
