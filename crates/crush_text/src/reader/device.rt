//! Reads the line of a device.

ghost use Rattle.crush_text.specs.Role.{device_id};
ghost use Rattle.crush_text.specs.Form.{first};
ghost use Rattle.crush_text.specs.Grammar.{device_line};
ghost use Rattle.crush_text.specs.ReadsWords.{FindsValue};
ghost use Rattle.crush_text.specs.ReadsLines.{ReadsLine, HasRoomFor};

use crate::expected::{Expected, Optional};
use crate::fault::{TextFault, TextFaultKind};
use crate::reader::MapReader;
use crate::reader::roles::read_word;
use crate::reader::word::memory_at;
use crate::statement_kind::StatementKind;
use crush_units::DeviceId;
use crush_units::limits::LAST_DEVICE_ID;
use crush_units::number::number_up_to;
use std::alloc::Allocator;

impl<'a, A: Allocator + Clone> MapReader<'a, A> {
    /// Reads `N NAME [class CLASS]`. The word `device` was read before. Returns the optional part
    /// that could still follow: `Optional::Class` if the line has no class, and otherwise
    /// `Optional::Nothing`.
    #[tactic(auto, unfolding(crate::specs::Reads::line_at))]
    pub(crate) fn device(&mut self) -> Result<Optional, TextFault>
        requires { HasRoomFor StatementKind.Device self.old.builder }
        ensures { ReadsLine device_line (λ k. (first, k)) self.old self.new result }
    {
        let id = self.device_id()?;
        let name = self.new_name()?;
        if self.text.take_key(b"class") {
            let class = read_word(&mut self.text, Expected::Class)?;
            return match self
                .builder
                .device_unchecked(id, name.text, Some(class.text))
            {
                Ok(()) => Ok(Optional::Nothing),
                Err(_) => Err(memory_at(class.place)),
            };
        }
        match self.builder.device_unchecked(id, name.text, None) {
            Ok(()) => Ok(Optional::Class),
            Err(_) => Err(memory_at(name.place)),
        }
    }

    /// Reads an id that no device has yet.
    #[tactic(auto, unfolding(crate::specs::Reads::word_at))]
    fn device_id(&mut self) -> Result<DeviceId, TextFault>
        ensures { FindsValue device_id (λ n. n) self.old self.new result }
    {
        let word = read_word(&mut self.text, Expected::DeviceId)?;
        let Some(id) = number_up_to(LAST_DEVICE_ID, word.text).and_then(DeviceId::from_number)
        else {
            return Err(word.fault(TextFaultKind::BadNumber, Expected::DeviceId));
        };
        if self.builder.has_device(id) {
            return Err(word.fault(TextFaultKind::DuplicateId, Expected::DeviceId));
        }
        Ok(id)
    }
}
