//! Implements printing with `{}` and `{:?}`. `{}` prints names, ids, numbers of types, weights and
//! algorithms in the form that they have in a map's text. `{:?}` prints a name in quotation marks,
//! in the same way as a `str`.

ghost use Rattle.std.specs.Prelude.{Some, decimal};
ghost use Rattle.std.specs.Fmt.{debug_str};
ghost use Rattle.crush_units.specs.Alg.{alg_text};
ghost use Rattle.crush_units.specs.Display.{bucket_text, device_text, item_text};
ghost use Rattle.crush_units.specs.Weight.{weight_text};

use crate::alg::Alg;
use crate::id::{BucketId, DeviceId, ItemId, TypeId};
use crate::name::Name;
use crate::weight::Weight;
use std::alloc::Allocator;
use std::{fmt, str};

impl<A: Allocator> fmt::Display for Name<A> {
    ghost output = { λ name. Some name };

    fn fmt<W: fmt::Write>(&self, f: &mut fmt::Formatter<W>) -> fmt::Result {
        f.write_str(self.as_str())
    }
}

impl<A: Allocator> fmt::Debug for Name<A> {
    ghost debug_output = { λ name. debug_str name };

    fn fmt<W: fmt::Write>(&self, f: &mut fmt::Formatter<W>) -> fmt::Result {
        let text = self.as_str();
        fmt::Debug::fmt(&text, f)
    }
}

impl fmt::Display for DeviceId {
    ghost output = { λ id. Some (device_text id) };

    fn fmt<W: fmt::Write>(&self, f: &mut fmt::Formatter<W>) -> fmt::Result {
        let number = self.number();
        write!(f, "{number}")
    }
}

impl fmt::Display for BucketId {
    ghost output = { λ id. Some (bucket_text id) };

    fn fmt<W: fmt::Write>(&self, f: &mut fmt::Formatter<W>) -> fmt::Result {
        let below = self.distance();
        write!(f, "-{below}")
    }
}

impl fmt::Display for ItemId {
    ghost output = { λ id. Some (item_text id) };

    fn fmt<W: fmt::Write>(&self, f: &mut fmt::Formatter<W>) -> fmt::Result {
        match self {
            ItemId::Device(device) => write!(f, "{device}"),
            ItemId::Bucket(bucket) => write!(f, "{bucket}"),
        }
    }
}

impl fmt::Display for TypeId {
    ghost output = { λ kind. Some (decimal kind) };

    fn fmt<W: fmt::Write>(&self, f: &mut fmt::Formatter<W>) -> fmt::Result {
        let number = self.number();
        write!(f, "{number}")
    }
}

impl fmt::Display for Alg {
    ghost output = { λ alg. Some (alg_text alg) };

    fn fmt<W: fmt::Write>(&self, f: &mut fmt::Formatter<W>) -> fmt::Result {
        f.write_str(self.name())
    }
}

impl fmt::Display for Weight {
    ghost output = { λ weight. Some (weight_text weight) };

    fn fmt<W: fmt::Write>(&self, f: &mut fmt::Formatter<W>) -> fmt::Result {
        let _units = self.units();
        let mut digits = [0; 16];
        let len = self.text(&mut digits);
        match str::from_utf8(&digits[..len]) {
            Ok(text) => f.write_str(text),
            Err(_) => unreachable!(),
        }
    }
}
