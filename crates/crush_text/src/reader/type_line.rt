//! Reads the line of a type.

ghost use Rattle.crush_text.specs.declared.expected.Optional.TheVariants.{Nothing};
ghost use Rattle.crush_text.specs.Role.{type_number, type_name};
ghost use Rattle.crush_text.specs.Form.{first};
ghost use Rattle.crush_text.specs.Grammar.{type_line};
ghost use Rattle.crush_text.specs.ReadsWords.{FindsWord, FindsValue};
ghost use Rattle.crush_text.specs.ReadsLines.{ReadsLine, HasRoomFor};

use crate::expected::Expected;
use crate::fault::{TextFault, TextFaultKind};
use crate::reader::MapReader;
use crate::reader::roles::read_word;
use crate::reader::word::{PlacedWord, next_word, out_of_memory_at};
use crate::statement_kind::StatementKind;
use crush_map::is_reserved;
use crush_units::TypeId;
use crush_units::limits::LAST_TYPE;
use crush_units::number::number_up_to;
use std::alloc::Allocator;

impl<'a, A: Allocator> MapReader<'a, A> {
    /// Reads `N NAME`. The word `type` was read before.
    #[tactic(auto, unfolding(crate::specs::Reads::line_at))]
    pub(crate) fn kind(&mut self) -> Result<(), TextFault>
        requires { HasRoomFor StatementKind.Type self.old.builder }
        ensures { ReadsLine type_line (λ _. (first, Nothing)) self.old self.new result }
    {
        let number = self.type_number()?;
        let name = self.type_name(number)?;
        self.builder
            .kind(number, name.text)
            .map_err(|fault| out_of_memory_at(name.place, fault))
    }

    /// Reads a number that no type has yet.
    #[tactic(auto, unfolding(crate::specs::Reads::word_at))]
    fn type_number(&mut self) -> Result<TypeId, TextFault>
        ensures { FindsValue type_number (λ n. n) self.old self.new result }
    {
        let word = read_word(&mut self.text, Expected::TypeNumber)?;
        let Some(number) = number_up_to(LAST_TYPE, word.text) else {
            return Err(word.fault(TextFaultKind::BadNumber, Expected::TypeNumber));
        };
        let number = TypeId::new(number as u16);
        if self.builder.has_kind_number(number) {
            return Err(word.fault(TextFaultKind::DuplicateId, Expected::TypeNumber));
        }
        Ok(number)
    }

    /// Reads a name that no type has yet. `number` is the number of the new type. The name may be a
    /// word that the grammar reserves only if this number is 0.
    #[tactic(auto, unfolding(crate::specs::Reads::word_at))]
    fn type_name(&mut self, number: TypeId) -> Result<PlacedWord<'a>, TextFault>
        ensures { FindsWord (type_name number) self.old self.new result }
    {
        let word = next_word(&mut self.text, Expected::TypeName)?;
        if word.is_brace() || (is_reserved(word.text) && number.number() != 0) {
            return Err(word.fault(TextFaultKind::Unexpected, Expected::TypeName));
        }
        if self.builder.has_kind_name(word.text) {
            return Err(word.fault(TextFaultKind::DuplicateName, Expected::TypeName));
        }
        Ok(word)
    }
}
