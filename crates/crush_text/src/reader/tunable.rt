//! Reads the line of a tunable.

ghost use Rattle.crush_text.specs.declared.expected.Optional.TheVariants.{Nothing};
ghost use Rattle.crush_text.specs.Role.{tunable_name};
ghost use Rattle.crush_text.specs.Form.{first};
ghost use Rattle.crush_text.specs.Grammar.{tunable_line};
ghost use Rattle.crush_text.specs.ReadsWords.{FindsWord};
ghost use Rattle.crush_text.specs.ReadsLines.{ReadsLine, HasRoomFor};

use crate::expected::Expected;
use crate::fault::{TextFault, TextFaultKind};
use crate::reader::MapReader;
use crate::reader::roles::{read_number, read_word};
use crate::reader::word::{PlacedWord, out_of_memory_at};
use crate::statement_kind::StatementKind;
use crush_units::limits::LARGEST_TUNABLE;
use std::alloc::Allocator;

impl<'a, A: Allocator> MapReader<'a, A> {
    /// Reads `NAME N`. The word `tunable` was read before.
    #[tactic(auto, unfolding(crate::specs::Reads::line_at))]
    pub(crate) fn tunable(&mut self) -> Result<(), TextFault>
        requires { HasRoomFor StatementKind.Tunable self.old.builder }
        ensures { ReadsLine tunable_line (λ _. (first, Nothing)) self.old self.new result }
    {
        let name = self.tunable_name()?;
        let value = read_number(&mut self.text, LARGEST_TUNABLE)?;
        self.builder
            .tunable(name.text, value)
            .map_err(|fault| out_of_memory_at(name.place, fault))
    }

    /// Reads a name that no tunable has yet.
    #[tactic(auto, unfolding(crate::specs::Reads::word_at))]
    fn tunable_name(&mut self) -> Result<PlacedWord<'a>, TextFault>
        ensures { FindsWord tunable_name self.old self.new result }
    {
        let word = read_word(&mut self.text, Expected::TunableName)?;
        if self.builder.has_tunable(word.text) {
            return Err(word.fault(TextFaultKind::DuplicateName, Expected::TunableName));
        }
        Ok(word)
    }
}
