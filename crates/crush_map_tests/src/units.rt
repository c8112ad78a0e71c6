//! Tests limits, ids and algorithms, and examples of weights and names that were worked out by
//! hand.

use crush_units::limits::*;
use crush_units::*;
use std::alloc::{AllocGlobal, Allocator, Global};
use std::collections::HashSet;
use std::fmt::Display;
use std::process::Abort;

const _: () = prove!(UNITS_OF_ONE == 1 << 16);

const _: () = prove!(HEAVIEST_DEVICE == (1 << 31) - 1);

const _: () = prove!(HEAVIEST_BUCKET == u32::MAX);

const _: () = prove!(HEAVIEST_MAP == (1 << 43) - 1);

const _: () = prove!(LAST_DEVICE_ID == (1 << 31) - 1);

const _: () = prove!(DEVICE_IDS == 1 << 31);

const _: () = prove!(FARTHEST_BUCKET_ID == 1 << 31);

const _: () = prove!(LAST_TYPE == 65_535);

const _: () = prove!(MOST_DEVICES == 65_536);

const _: () = prove!(MOST_BUCKETS == 4_096);

const _: () = prove!(LONGEST_NAME == 255);

const _: () = prove!(LONGEST_SHORT_NAME == 30);

const _: () = prove!(MOST_CLASS_IDS == 16);

const _: () = prove!(MOST_TYPES == 256);

const _: () = prove!(MOST_FREE_IDS == 65_536);

const _: () = prove!(MOST_TUNABLES == 64);

const _: () = prove!(MOST_RULES == 256);

const _: () = prove!(MOST_STEPS == 64);

const _: () = prove!(MOST_PAIRS == 16);

const _: () = prove!(MOST_EDITS == 65_536);

const _: () = prove!(MOST_OPERATORS == 16);

const _: () = prove!(MOST_CALLS == 65_536);

const _: () = prove!(MOST_ENTRIES == 65_536);

const _: () = prove!(LONGEST_JOB == 16 << 20);

fn device_number(number: i32) -> Option<u32> {
    let id = DeviceId::new(number)?;
    Some(id.number())
}

#[test]
fn device_ids(rt: HostRuntime) {
    let last = DeviceId::from_number(2147483647);
    assert_eq!(rt; device_number(2147483647), Some(2147483647));
    assert_eq!(rt; device_number(0), Some(0));
    assert_eq!(rt; device_number(-1), None);
    assert_eq!(rt; last, DeviceId::new(2147483647));
    assert!(rt; last.is_some());
    assert_eq!(rt; DeviceId::from_number(2147483648), None);
}

fn assert_osd_name(rt: &impl Abort, number: i32, text: &str) {
    let id = DeviceId::new(number).expect(rt, text);
    let name: Name<Global> = id.osd_name();
    assert_eq!(rt; name.as_str(), text);
    drop(name);
}

#[test]
fn osd_names(rt: HostRuntime) {
    assert_osd_name(&rt, 0, "osd.0");
    assert_osd_name(&rt, 7, "osd.7");
    assert_osd_name(&rt, 2147483647, "osd.2147483647");
}

fn bucket_number(number: i32) -> Option<(i32, u32)> {
    let id = BucketId::new(number)?;
    Some((id.number(), id.distance()))
}

#[test]
fn bucket_ids(rt: HostRuntime) {
    let last = BucketId::below_zero(2147483648);
    assert_eq!(rt; bucket_number(-2147483648), Some((-2147483648, 2147483648)));
    assert_eq!(rt; bucket_number(-3), Some((-3, 3)));
    assert_eq!(rt; bucket_number(0), None);
    assert_eq!(rt; last, BucketId::new(-2147483648));
    assert!(rt; last.is_some());
    assert_eq!(rt; BucketId::below_zero(3), BucketId::new(-3));
    assert_eq!(rt; BucketId::below_zero(0), None);
    assert_eq!(rt; BucketId::below_zero(2147483649), None);
}

fn assert_two_items(rt: &impl Abort, device: &ItemId, bucket: &ItemId) {
    assert_eq!(rt; device.number(), 1);
    assert_eq!(rt; bucket.number(), -1);
    assert!(rt; device.is_same(*device));
    assert!(rt; !device.is_same(*bucket));
}

#[test]
fn item_ids(rt: HostRuntime) {
    let device = DeviceId::new(1).expect(&rt, "a device");
    let bucket = BucketId::new(-1).expect(&rt, "a bucket");
    assert_two_items(&rt, &ItemId::Device(device), &ItemId::Bucket(bucket));
    assert_eq!(rt; TypeId::new(65535).number(), 65535);
}

fn assert_named(rt: &impl Abort, alg: Alg, name: &str) {
    assert_eq!(rt; alg.name(), name);
    assert!(rt; alg.is_same(alg), "{name}");
    assert_eq!(rt; Alg::read(name.as_bytes()), Some(alg));
}

#[test]
fn algorithms(rt: HostRuntime) {
    assert_named(&rt, Alg::Straw, "straw");
    assert_named(&rt, Alg::List, "list");
    assert_named(&rt, Alg::Straw2, "straw2");
    assert_eq!(rt; Alg::read(b"uniform"), None);
    assert_eq!(rt; Alg::read(b"straw22"), None);
}

fn assert_osd_0<A: Allocator>(rt: &impl Abort, name: &Name<A>) {
    assert_eq!(rt; name.as_str(), "osd.0");
    assert!(rt; name.as_bytes() == b"osd.0".as_slice());
    assert!(rt; name.is(b"osd.0"));
    assert!(rt; !name.is(b"osd.1"));
}

#[test]
fn names(rt: HostRuntime) {
    let name = Name::read(rt.alloc(), b"osd.0").expect(&rt, "a name");
    let copy = name.try_copy(rt.alloc()).expect(&rt, "memory");
    assert_osd_0(&rt, &name);
    assert_osd_0(&rt, &copy);
    assert_eq!(rt; copy, name);
    drop(copy);
    drop(name);
    assert!(rt; Name::read(rt.alloc(), &[b'Z'; 255]).is_ok());
}

fn assert_refused(rt: &(impl Abort + AllocGlobal), bytes: &[u8], fault: NameFault, number: u8) {
    assert!(rt; !is_name(bytes), "{fault:?}");
    assert_eq!(rt; Name::read(rt.alloc(), bytes).err(), Some(fault));
    assert_eq!(rt; fault.number(), number, "{fault:?}");
}

#[test]
fn names_refused(rt: HostRuntime) {
    assert_refused(&rt, b"", NameFault::Empty, 1);
    assert_refused(&rt, b"a b", NameFault::BadByte(1), 2);
    assert_refused(&rt, &[b'{'; 256], NameFault::BadByte(0), 2);
    assert_refused(&rt, &[b'a'; 256], NameFault::TooLong, 3);
    assert_eq!(rt; NameFault::OutOfMemory.number(), 4);
}

fn assert_name_bytes(rt: &impl Abort, bytes: &[u8], may: bool) {
    for byte in bytes {
        assert_eq!(rt; is_name_byte(*byte), may, "byte {byte}");
    }
}

#[test]
fn bytes_of_names(rt: HostRuntime) {
    assert_name_bytes(&rt, b"azAZ09-_.", true);
    assert_name_bytes(&rt, b"@[`{/:,+ ", false);
}

/// The text of a weight, the weight in units of 1/65536, and the text that is printed for this
/// weight.
const WEIGHTS: &[(&str, u32, &str)] = &[
    ("0", 0, "0.00000"),
    ("1", 65536, "1.00000"),
    ("1.0", 65536, "1.00000"),
    ("0.5", 32768, "0.50000"),
    ("0.25", 16384, "0.25000"),
    ("0.333", 21823, "0.33299"),
    ("0.015625", 1024, "0.01563"),
    ("0.00000762939453125", 1, "0.00002"),
    ("9.000", 589824, "9.00000"),
    ("32767.99998", 2147483647, "32767.99998"),
    ("32768", 2147483648, "32768.00000"),
    ("65535.99997", 4294967294, "65535.99997"),
    ("0000000001", 65536, "1.00000"),
];

fn assert_weight(rt: &impl Abort, text: &str, units: u32, printed: &str) {
    let weight = Weight::from_units(units);
    assert_eq!(rt; Weight::read(text), Ok(weight), "{text}");
    assert_eq!(rt;
        Weight::read_bytes(printed.as_bytes()),
        Ok(weight),
        "{printed}"
    );
    assert_eq!(rt; weight.units(), units);
    assert_eq!(rt; weight.is_device_weight(), units <= 2147483647, "{text}");
    assert!(rt; is_printed(weight, printed.as_bytes()), "{printed}");
}

fn is_printed(weight: Weight, printed: &[u8]) -> bool {
    let mut buffer = [0; 16];
    let length = weight.text(&mut buffer);
    length <= 16 && &buffer[..length] == printed
}

#[test]
fn weights(rt: HostRuntime) {
    for (text, units, printed) in WEIGHTS {
        assert_weight(&rt, *text, *units, *printed);
    }
    printed_is_read_back();
}

/// A weight in units of 1/65536, and its exact text.
const EXACT_WEIGHTS: &[(u32, &str)] = &[
    (0, "0.000000"),
    (1, "0.000016"),
    (65536, "1.000000"),
    (119208, "1.818970"),
    (238465, "3.638688"),
    (4294967295, "65535.999985"),
];

fn is_exactly_printed(weight: Weight, exact: &[u8]) -> bool {
    let mut buffer = [0; 16];
    let length = weight.exact_text(&mut buffer);
    length <= 16 && &buffer[..length] == exact
}

fn assert_exact(rt: &impl Abort, units: u32, exact: &str) {
    let weight = Weight::from_units(units);
    assert!(rt; is_exactly_printed(weight, exact.as_bytes()), "{exact}");
    assert_eq!(rt; Weight::read(exact), Ok(weight), "{exact}");
}

#[test]
fn exact_weights(rt: HostRuntime) {
    for (units, exact) in EXACT_WEIGHTS {
        assert_exact(&rt, *units, *exact);
    }
    exact_is_read_back();
    exact_is_cut_back();
}

const NO_WEIGHTS: &[&str] = &[
    "",
    ".",
    ".5",
    "1.",
    "1.2.3",
    "+1",
    "-1",
    "1e3",
    " 1",
    "00000000001",
    "0.0000000000000000001",
];

const TOO_LARGE: &[&str] = &["65536", "65535.999999", "9999999999"];

fn assert_no_weights(rt: &impl Abort, texts: &[&str], fault: WeightFault) {
    for text in texts {
        assert_eq!(rt; Weight::read(*text), Err(fault), "{text}");
    }
}

#[test]
fn weights_refused(rt: HostRuntime) {
    assert_no_weights(&rt, NO_WEIGHTS, WeightFault::Syntax);
    assert_no_weights(&rt, TOO_LARGE, WeightFault::TooLarge);
    assert_eq!(rt; WeightFault::Syntax.number(), 1);
    assert_eq!(rt; WeightFault::TooLarge.number(), 2);
}

fn device(number: u32) -> Option<DeviceId> {
    number.try_into().ok()
}

fn bucket(number: i32) -> Option<BucketId> {
    number.try_into().ok()
}

#[test]
fn conversions(rt: HostRuntime) {
    assert_eq!(rt; device(3), DeviceId::new(3));
    assert_eq!(rt; device(2147483648), None);
    assert_eq!(rt; DeviceId::try_from(0_i32).ok(), DeviceId::new(0));
    assert_eq!(rt; DeviceId::try_from(-1_i32), Err(IdFault::NotDevice));
    assert_eq!(rt; bucket(-3), BucketId::new(-3));
    assert_eq!(rt; BucketId::try_from(0), Err(IdFault::NotBucket));
    assert_eq!(rt; TypeId::from(65535), TypeId::new(65535));
    assert_eq!(rt; Weight::default(), Weight::from_units(0));
    assert_eq!(rt; "1.5".parse::<Weight>(), Ok(Weight::from_units(98304)));
    assert_eq!(rt; "1.".parse::<Weight>(), Err(WeightFault::Syntax));
    assert_eq!(rt; "list".parse::<Alg>(), Ok(Alg::List));
    assert_eq!(rt; "tree".parse::<Alg>(), Err(AlgFault));
}

#[test]
fn orders(rt: HostRuntime) {
    let low = device(3).expect(&rt, "a device");
    let high = device(10).expect(&rt, "a device");
    let near = bucket(-1).expect(&rt, "a bucket");
    let far = bucket(-2).expect(&rt, "a bucket");
    assert!(rt; low < high);
    assert!(rt; far < near);
    assert!(rt; ItemId::from(low) < ItemId::from(high));
    assert!(rt; ItemId::from(high) < ItemId::from(far));
    assert!(rt; ItemId::from(far) < ItemId::from(near));
    assert!(rt; TypeId::new(1) < TypeId::new(11));
    assert!(rt; Weight::from_units(9) < Weight::from_units(10));
    assert!(rt; Alg::Straw < Alg::Straw2);
    assert!(rt; Alg::Straw2 < Alg::List);
}

fn assert_shown(rt: &(impl Abort + AllocGlobal), value: impl Display + Drop, shown: &str) {
    let text = format!(in rt.alloc(); "{value}").expect(rt, "memory");
    assert_eq!(rt; text.as_str(), shown);
    drop(text);
}

#[test]
fn shown(rt: HostRuntime) {
    let name = Name::read(rt.alloc(), b"osd.3").expect(&rt, "a name");
    let quoted = format!(in rt.alloc(); "{name:?}").expect(&rt, "memory");
    assert_eq!(rt; quoted.as_str(), "\"osd.3\"");
    drop(quoted);
    drop(name);
    assert_shown(&rt, Alg::Straw2, "straw2");
    assert_shown(&rt, TypeId::new(11), "11");
    assert_shown(&rt, Weight::from_units(98304), "1.50000");
}

#[test]
fn values_are_keys(rt: HostRuntime) {
    let mut keys = HashSet::new(rt.alloc());
    let device = device(1).expect(&rt, "a device");
    let bucket = bucket(-1).expect(&rt, "a bucket");
    let first = keys.insert(ItemId::from(device)).expect(&rt, "memory");
    let second = keys.insert(ItemId::from(bucket)).expect(&rt, "memory");
    let again = keys.insert(ItemId::from(device)).expect(&rt, "memory");
    drop(keys);
    assert_eq!(rt; [first, second, again], [true, true, false]);
}
