//! Passes the statements of a map's text to a builder. Before each call, the module asserts what
//! the builder's method requires.

use crush_builder::{BuildFault, MapBuilder};
use crush_map::{CrushMap, is_reserved};
use crush_units::{Alg, BucketId, DeviceId, TypeId, Weight, is_name};
use std::alloc::{Allocator, Global};
use std::process::Abort;

/// A statement, or a part of a bucket's statement. Weights are in units of 1/65536.
#[derive(Clone, Copy)]
pub(super) enum Statement<'a> {
    Type(u16, &'a str),
    Device(i32, &'a str),
    DeviceOfClass(i32, &'a str, &'a str),
    Tunable(&'a str, u32),
    Begin(&'a str, &'a str),
    Id(i32),
    ClassId(i32, &'a str),
    Alg,
    Item(&'a str, u32),
    ItemAsItIs(&'a str),
    End,
}

pub(super) fn empty(rt: &impl Abort, alloc: Global) -> MapBuilder<Global> {
    MapBuilder::new(alloc, alloc).expect(rt, "memory")
}

pub(super) fn make<A: Allocator + Clone>(
    rt: &impl Abort,
    builder: &mut MapBuilder<A>,
    statement: Statement,
) -> Result<(), BuildFault> {
    match statement {
        Statement::Type(number, name) => add_type(rt, builder, number, name.as_bytes()),
        Statement::Device(number, name) => add_device(rt, builder, number, name.as_bytes(), None),
        Statement::DeviceOfClass(number, name, class) => {
            add_device(rt, builder, number, name.as_bytes(), Some(class.as_bytes()))
        }
        Statement::Tunable(name, value) => add_tunable(rt, builder, name.as_bytes(), value),
        Statement::Begin(kind, name) => {
            begin_bucket(rt, builder, kind.as_bytes(), name.as_bytes())
        }
        Statement::Id(number) => number_bucket(rt, builder, number),
        Statement::ClassId(number, class) => add_class_id(rt, builder, number, class.as_bytes()),
        Statement::Alg => fill_bucket(rt, builder),
        Statement::Item(name, units) => {
            add_item(
                rt,
                builder,
                name.as_bytes(),
                Some(Weight::from_units(units)),
            )
        }
        Statement::ItemAsItIs(name) => add_item(rt, builder, name.as_bytes(), None),
        Statement::End => {
            end_bucket(rt, builder);
            Ok(())
        }
    }
}

pub(super) fn make_all<A: Allocator + Clone>(
    rt: &impl Abort,
    builder: &mut MapBuilder<A>,
    statements: &[Statement],
) -> Result<(), BuildFault> {
    for statement in statements {
        make(rt, builder, *statement)?;
    }
    Ok(())
}

pub(super) fn takes_all(
    rt: &impl Abort,
    builder: &mut MapBuilder<Global>,
    statements: &[Statement],
) {
    make_all(rt, builder, statements).expect(rt, "a statement");
}

pub(super) fn finish<A: Allocator>(rt: &impl Abort, builder: MapBuilder<A>) -> CrushMap<A> {
    assert!(rt; builder.is_idle());
    builder.finish()
}

fn add_type<A: Allocator + Clone>(
    rt: &impl Abort,
    builder: &mut MapBuilder<A>,
    number: u16,
    name: &[u8],
) -> Result<(), BuildFault> {
    assert!(rt; builder.is_idle());
    assert!(rt; is_name(name));
    assert!(rt; !is_reserved(name));
    builder.kind(TypeId::new(number), name)
}

fn add_device<A: Allocator + Clone>(
    rt: &impl Abort,
    builder: &mut MapBuilder<A>,
    number: i32,
    name: &[u8],
    class: Option<&[u8]>,
) -> Result<(), BuildFault> {
    let id = DeviceId::new(number).expect(rt, "a device");
    let has_form = match class {
        Some(class) => is_name(class),
        None => true,
    };
    assert!(rt; builder.is_idle());
    assert!(rt; is_name(name));
    assert!(rt; has_form);
    builder.device(id, name, class)
}

fn begin_bucket<A: Allocator + Clone>(
    rt: &impl Abort,
    builder: &mut MapBuilder<A>,
    kind: &[u8],
    name: &[u8],
) -> Result<(), BuildFault> {
    assert!(rt; builder.is_idle());
    assert!(rt; is_name(name));
    builder.begin(kind, name)
}

fn add_tunable<A: Allocator + Clone>(
    rt: &impl Abort,
    builder: &mut MapBuilder<A>,
    name: &[u8],
    value: u32,
) -> Result<(), BuildFault> {
    assert!(rt; builder.is_idle());
    assert!(rt; is_name(name));
    builder.tunable(name, value)
}

fn number_bucket<A: Allocator + Clone>(
    rt: &impl Abort,
    builder: &mut MapBuilder<A>,
    number: i32,
) -> Result<(), BuildFault> {
    let id = BucketId::new(number).expect(rt, "a bucket");
    assert!(rt; builder.is_begun());
    builder.id(id)
}

fn add_class_id<A: Allocator + Clone>(
    rt: &impl Abort,
    builder: &mut MapBuilder<A>,
    number: i32,
    class: &[u8],
) -> Result<(), BuildFault> {
    let id = BucketId::new(number).expect(rt, "a class id");
    assert!(rt; builder.is_numbered());
    assert!(rt; is_name(class));
    builder.class_id(id, class)
}

fn fill_bucket<A: Allocator + Clone>(
    rt: &impl Abort,
    builder: &mut MapBuilder<A>,
) -> Result<(), BuildFault> {
    assert!(rt; builder.is_numbered());
    builder.alg(Alg::Straw2)
}

fn add_item<A: Allocator + Clone>(
    rt: &impl Abort,
    builder: &mut MapBuilder<A>,
    name: &[u8],
    weight: Option<Weight>,
) -> Result<(), BuildFault> {
    assert!(rt; builder.is_filling());
    let id = builder.item_named(name)?;
    builder.item(id, weight)
}

fn end_bucket<A: Allocator>(rt: &impl Abort, builder: &mut MapBuilder<A>) {
    assert!(rt; builder.is_filling());
    builder.end();
}
