//! A JSON text that is built token by token. The methods that write fail only if memory runs out.

ghost use Rattle.std.specs.Prelude.{◌≡◌, ◌++◌, ◌∷◌, [], IfOk, OnOk};
ghost use Rattle.std.specs.Option.{option_map};
ghost use Rattle.json.specs.Print.{print};
ghost use Rattle.json.specs.Token.{begin_object, end_object, begin_array, end_array, key};
ghost use Rattle.serde_json.specs.Data.{boolean, string};
ghost use Rattle.crush_units.specs.Id.{item_number};
ghost use Rattle.crush_json.specs.Tokens.{member_tokens, text_tokens_if, tokens_of, weight_tokens, whole_tokens_if};
ghost use Rattle.crush_json.specs.Values.{natural, whole};

use crush_units::{ItemId, Weight};
use itoa::Buffer;
use json::Writer;
use std::alloc::{AllocError, Global};
use std::marker::Model;

/// A JSON text. Its writer places the commas and colons. The caller must end each object and array
/// that it has begun. Contracts describe the text by its tokens. Except for `key`, a method with an
/// argument `name` writes a whole member of an object. A method whose name begins with `push_`
/// writes a value, such as an element of an array.
#[derive(Drop)]
pub(crate) struct Document {
    writer: Writer<Global>,
}

impl Model for Document {
    ghost use Rattle.std.specs.Prelude.{List, ◌≡◌, []};
    ghost use Rattle.json.specs.Token.{Token, tokens_code};

    ghost Value = { List Token };

    ghost coded = { tokens_code };

    ghost view = { λ document. document.writer.tokens };

    ghost invariant = { λ document. document.writer.before ≡ [] };
}

impl Document {
    /// Returns an empty document with memory for `capacity` bytes. Fails only if memory runs out.
    pub(crate) fn new(alloc: Global, capacity: usize) -> Result<Document, AllocError>
        ensures { IfOk result (λ document. document ≡ []) }
    {
        Ok(Document {
            writer: Writer::new(Vec::with_capacity(alloc, capacity)?),
        })
    }

    /// Returns the bytes of the text.
    pub(crate) fn finish(self) -> Vec<u8>
        ensures { result.items ≡ print self }
    {
        self.writer.into_inner()
    }

    pub(crate) fn begin_object(&mut self) -> Result<(), AllocError>
        ensures { OnOk result (self.new ≡ self.old ++ begin_object ∷ []) }
    {
        self.writer.begin_object()
    }

    pub(crate) fn end_object(&mut self) -> Result<(), AllocError>
        ensures { OnOk result (self.new ≡ self.old ++ end_object ∷ []) }
    {
        self.writer.end_object()
    }

    pub(crate) fn begin_array(&mut self) -> Result<(), AllocError>
        ensures { OnOk result (self.new ≡ self.old ++ begin_array ∷ []) }
    {
        self.writer.begin_array()
    }

    pub(crate) fn end_array(&mut self) -> Result<(), AllocError>
        ensures { OnOk result (self.new ≡ self.old ++ end_array ∷ []) }
    {
        self.writer.end_array()
    }

    /// Writes the name of a member. The caller must write the value of the member next.
    pub(crate) fn key(&mut self, name: &str) -> Result<(), AllocError>
        ensures { OnOk result (self.new ≡ self.old ++ key name.now ∷ []) }
    {
        self.writer.key(name)
    }

    pub(crate) fn text(&mut self, name: &str, text: &str) -> Result<(), AllocError>
        ensures { OnOk result (self.new
            ≡ self.old ++ member_tokens name.now (string text.now)) }
    {
        self.writer.key(name)?;
        self.writer.string(text)
    }

    /// Writes a member with this text. If there is no text, writes nothing.
    pub(crate) fn text_if(&mut self, name: &str, text: Option<&str>) -> Result<(), AllocError>
        ensures { OnOk result (self.new
            ≡ self.old ++ text_tokens_if name.now (option_map (λ text. text.now) text.entry)) }
    {
        match text {
            Some(text) => self.text(name, text),
            None => Ok(()),
        }
    }

    pub(crate) fn natural(&mut self, name: &str, number: u64) -> Result<(), AllocError>
        ensures { OnOk result (self.new ≡ self.old ++ member_tokens name.now (natural number)) }
    {
        self.writer.key(name)?;
        self.writer.u64(number)
    }

    /// Writes a member whose value is a number of up to 128 bits.
    pub(crate) fn large(&mut self, name: &str, number: u128) -> Result<(), AllocError>
        ensures { OnOk result (self.new ≡ self.old ++ member_tokens name.now (natural number)) }
    {
        let mut buffer = Buffer::new();
        let text = buffer.format(number);
        self.writer.key(name)?;
        self.writer.number(text)
    }

    /// Writes a number as an element of an array.
    pub(crate) fn push_natural(&mut self, number: u64) -> Result<(), AllocError>
        ensures { OnOk result (self.new ≡ self.old ++ tokens_of (natural number)) }
    {
        self.writer.u64(number)
    }

    pub(crate) fn whole(&mut self, name: &str, number: i32) -> Result<(), AllocError>
        ensures { OnOk result (self.new ≡ self.old ++ member_tokens name.now (whole number)) }
    {
        self.writer.key(name)?;
        self.push_whole(number)
    }

    fn push_whole(&mut self, number: i32) -> Result<(), AllocError>
        ensures { OnOk result (self.new ≡ self.old ++ tokens_of (whole number)) }
    {
        if number < 0 {
            self.writer.i64(number as i64)
        } else {
            self.writer.u64(number as u64)
        }
    }

    pub(crate) fn push_id(&mut self, id: ItemId) -> Result<(), AllocError>
        ensures { OnOk result (self.new ≡ self.old ++ tokens_of (whole (item_number id))) }
    {
        self.push_whole(id.number())
    }

    pub(crate) fn push_text(&mut self, text: &str) -> Result<(), AllocError>
        ensures { OnOk result (self.new ≡ self.old ++ tokens_of (string text.now)) }
    {
        self.writer.string(text)
    }

    pub(crate) fn truth(&mut self, name: &str, holds: bool) -> Result<(), AllocError>
        ensures { OnOk result (self.new ≡ self.old ++ member_tokens name.now (boolean holds)) }
    {
        self.writer.key(name)?;
        self.writer.boolean(holds)
    }

    /// Writes the member `weight`. Its value is a decimal number with six digits after the point,
    /// so that 65536 units are 1.000000. The weight is rounded up to such a number. A program that
    /// rounds this number down to whole units gets exactly the same weight.
    pub(crate) fn weight(&mut self, weight: Weight) -> Result<(), AllocError>
        ensures { OnOk result (self.new ≡ self.old ++ weight_tokens weight) }
    {
        let _units = weight.units();
        let mut digits = [0u8; 16];
        let len = weight.exact_text(&mut digits);
        let Ok(text) = str::from_utf8(&digits[..len]) else {
            unreachable!()
        };
        self.writer.key("weight")?;
        self.writer.number(text)
    }

    pub(crate) fn id(&mut self, name: &str, id: ItemId) -> Result<(), AllocError>
        ensures { OnOk result (self.new
            ≡ self.old ++ member_tokens name.now (whole (item_number id))) }
    {
        self.whole(name, id.number())
    }

    /// Writes a member with this number. If there is no number, writes nothing.
    pub(crate) fn whole_if(&mut self, name: &str, number: Option<i32>) -> Result<(), AllocError>
        ensures { OnOk result (self.new ≡ self.old ++ whole_tokens_if name.now number) }
    {
        match number {
            Some(number) => self.whole(name, number),
            None => Ok(()),
        }
    }
}
