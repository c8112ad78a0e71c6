//! Reads a bucket, and its lines up to the algorithm.

ghost use Rattle.std.specs.Prelude.{◌≡◌, false, IfOk, Some, None, drop, if◌then◌else◌};
ghost use Rattle.std.specs.Str.Parse.{digits_value};
ghost use Rattle.crush_builder.specs.Building.{is_begun, is_numbered};
ghost use Rattle.crush_units.specs.Numbers.{is_negative};
ghost use Rattle.crush_text.specs.declared.expected.Optional.TheVariants.{Nothing};
ghost use Rattle.crush_text.specs.Role.{bucket_id, id_or_alg, id_class, algorithm, kind_of_word};
ghost use Rattle.crush_text.specs.Form.{second, begun, numbered, filling, at};
ghost use Rattle.crush_text.specs.Grammar.{bucket_line, id_line, class_id_line, alg_line, line_forms};
ghost use Rattle.crush_text.specs.Flow.{between, arrive};
ghost use Rattle.crush_text.specs.ReadsWords.{StoodAt, FindsWord, FindsValue, ReadsValue, AnyDraft};
ghost use Rattle.crush_text.specs.ReadsLines.{IsAmid, behind_id, ReadsLine, ReadsOn, HasRoomForId, HasRoomForBucket};

use crate::expected::{Expected, Keyword, Optional};
use crate::fault::{TextFault, TextFaultKind};
use crate::reader::MapReader;
use crate::reader::roles::{read_key, read_number, read_word};
use crate::reader::word::{PlacedWord, next_word, out_of_memory_at};
use crush_units::limits::FARTHEST_BUCKET_ID;
use crush_units::number::number_up_to;
use crush_units::{Alg, BucketId, Reader};
use std::alloc::Allocator;

impl<'a, A: Allocator + Clone> MapReader<'a, A> {
    /// Reads a bucket from its second word, which is its name, to its closing brace. The bucket's
    /// first word was read before. This word is `kind`, the name of the bucket's type.
    pub(crate) fn bucket(&mut self, kind: &[u8]) -> Result<(), TextFault>
        requires { HasRoomForBucket kind.now self.old.builder }
        ensures { ReadsOn (λ d. arrive d self.old.text.words (bucket_line d (kind_of_word d kind.now)))
            (λ _. (second, Nothing)) self.old self.new result }
    {
        self.bucket_name(kind)?;
        self.id_line()?;
        let or = self.class_ids()?;
        self.items(or)
    }

    #[tactic(auto, unfolding(crate::specs::Reads::line_at))]
    fn bucket_name(&mut self, kind: &[u8]) -> Result<(), TextFault>
        requires { HasRoomForBucket kind.now self.old.builder }
        ensures { ReadsLine (λ d. bucket_line d (kind_of_word d kind.now)) (λ _. (begun, Nothing))
            self.old self.new result }
    {
        let name = self.new_name()?;
        self.builder
            .begin(kind, name.text)
            .map_err(|fault| out_of_memory_at(name.place, fault))
    }

    /// Reads `{ id -N`.
    #[tactic(auto, unfolding(crate::specs::Reads::line_at))]
    fn id_line(&mut self) -> Result<(), TextFault>
        requires { IsAmid is_begun self.old.builder }
        ensures { ReadsLine id_line (λ _. (numbered, Nothing)) self.old self.new result }
    {
        read_key(&mut self.text, Keyword::Brace)?;
        read_key(&mut self.text, Keyword::Id)?;
        let id = self.bucket_id()?;
        let Ok(()) = self.builder.id(id) else {
            unreachable!()
        };
        Ok(())
    }

    /// Reads the bucket's class ids, and then its algorithm. Returns `Optional::Hash` if the line
    /// of the algorithm has no hash, and otherwise `Optional::Nothing`.
    fn class_ids(&mut self) -> Result<Optional, TextFault>
        requires { IsAmid is_numbered self.old.builder }
        ensures { ReadsOn (λ d. between (at numbered d)) (λ k. (filling false, k))
            self.old self.new result }
    {
        'ids: loop {
            if let Some(or) = self.class_id_or_alg()? {
                return Ok(or);
            }
        }
    }

    /// Reads either a class id or the algorithm. For a class id, returns `None`. For the algorithm,
    /// returns the optional part that could still follow: `Optional::Hash` if the line has no hash,
    /// and otherwise `Optional::Nothing`.
    #[tactic(auto, unfolding(crate::specs::Reads::line_at))]
    fn class_id_or_alg(&mut self) -> Result<Option<Optional>, TextFault>
        requires { IsAmid is_numbered self.old.builder }
        ensures { ReadsLine (λ d. line_forms d Nothing numbered) behind_id self.old self.new result }
    {
        let more = self.id_or_alg()?;
        if !more {
            let or = self.alg()?;
            return Ok(Some(or));
        }
        self.class_id()?;
        Ok(None)
    }

    /// Reads `-N class CLASS`. The word `id` was read before.
    #[tactic(auto, unfolding(crate::specs::Reads::line_at))]
    fn class_id(&mut self) -> Result<(), TextFault>
        requires { HasRoomForId self.old.builder }
        ensures { ReadsLine class_id_line (λ _. (numbered, Nothing)) self.old self.new result }
    {
        let id = self.bucket_id()?;
        read_key(&mut self.text, Keyword::Class)?;
        let class = self.id_class()?;
        self.builder
            .class_id(id, class.text)
            .map_err(|fault| out_of_memory_at(class.place, fault))
    }

    /// Reads an algorithm, and the hash after it if there is one. The word `alg` was read before.
    /// The only hash that is supported has the number 0. Returns the optional part that could still
    /// follow: `Optional::Hash` if there is no hash, and otherwise `Optional::Nothing`.
    #[tactic(auto, unfolding(crate::specs::Reads::line_at))]
    fn alg(&mut self) -> Result<Optional, TextFault>
        requires { IsAmid is_numbered self.old.builder }
        ensures { ReadsLine alg_line (λ k. (filling false, k)) self.old self.new result }
    {
        let (alg, place) = read_algorithm(&mut self.text)?;
        if self.text.take_key(b"hash") {
            read_number(&mut self.text, 0)?;
            return match self.builder.alg(alg) {
                Ok(()) => Ok(Optional::Nothing),
                Err(fault) => Err(out_of_memory_at(place, fault)),
            };
        }
        match self.builder.alg(alg) {
            Ok(()) => Ok(Optional::Hash),
            Err(fault) => Err(out_of_memory_at(place, fault)),
        }
    }

    /// Reads `-` and a number from 1 to 2147483648. This id must be new: no bucket has it as its
    /// own id or for a class.
    #[tactic(auto, unfolding(crate::specs::Reads::word_at))]
    fn bucket_id(&mut self) -> Result<BucketId, TextFault>
        ensures { FindsValue bucket_id (λ b. b) self.old self.new result }
    {
        let word = read_word(&mut self.text, Expected::BucketId)?;
        let Some(id) = below_zero(word.text) else {
            return Err(word.fault(TextFaultKind::BadNumber, Expected::BucketId));
        };
        if self.builder.has_bucket_id(id) {
            return Err(word.fault(TextFaultKind::DuplicateId, Expected::BucketId));
        }
        Ok(id)
    }

    /// Reads `id` or `alg`. Returns true for `id`, after which a class id follows. Fails at `id` if
    /// the bucket already has the maximum number of class ids.
    #[tactic(auto, unfolding(crate::specs::Reads::word_at))]
    fn id_or_alg(&mut self) -> Result<bool, TextFault>
        ensures { FindsValue id_or_alg (λ more. more) self.old self.new result }
    {
        let word = next_word(&mut self.text, Expected::IdOrAlg)?;
        if word.is(b"id") {
            if self.builder.is_full_of_class_ids() {
                return Err(word.fault(TextFaultKind::TooMany, Expected::IdOrAlg));
            }
            return Ok(true);
        }
        if word.is(b"alg") {
            return Ok(false);
        }
        Err(word.fault(TextFaultKind::Unexpected, Expected::IdOrAlg))
    }

    /// Reads a class for which the bucket has no class id yet.
    #[tactic(auto, unfolding(crate::specs::Reads::word_at))]
    fn id_class(&mut self) -> Result<PlacedWord<'a>, TextFault>
        ensures { FindsWord id_class self.old self.new result }
    {
        let word = read_word(&mut self.text, Expected::IdClass)?;
        if self.builder.has_class(word.text) {
            return Err(word.fault(TextFaultKind::DuplicateName, Expected::IdClass));
        }
        Ok(word)
    }
}

/// Returns the bucket id that the text spells: `-` and a number from 1 to 2147483648. Returns
/// `None` if the text isn't a bucket id.
fn below_zero(text: &[u8]) -> Option<BucketId>
    ensures { result ≡ (if is_negative text.now
        then Some (digits_value 10 (drop 1 text.now)) else None) }
{
    let [b'-', digits @ ..] = text else {
        return None;
    };
    number_up_to(FARTHEST_BUCKET_ID, digits).and_then(BucketId::below_zero)
}

/// Reads the name of an algorithm, and returns the algorithm with the word's place.
#[tactic(auto, unfolding(crate::specs::Reads::word_at))]
fn read_algorithm(reader: &mut Reader<'_>) -> Result<(Alg, usize), TextFault>
    ensures alg { ReadsValue algorithm (λ x. x.0) AnyDraft reader.old reader.new result }
    ensures stood { IfOk result (λ x. StoodAt Expected.Algorithm reader.old reader.new x.1) }
{
    let word = read_word(reader, Expected::Algorithm)?;
    match Alg::read(word.text) {
        Some(alg) => Ok((alg, word.place)),
        None => Err(word.fault(TextFaultKind::OtherAlgorithm, Expected::Algorithm)),
    }
}
