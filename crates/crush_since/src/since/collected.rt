//! Collects what two maps say about each device class.

ghost use Rattle.std.specs.Prelude.{◌≡◌, ◌*◌, ◌+◌, ◌<◌, ◌≤◌, ◌^◌, ◌∷◌, ◌++◌, [], List, IfOk, bytes_eq, length, get_or, map as each};
ghost use Rattle.std.specs.Prelude.{reverse};
ghost use Rattle.crush_since.specs.Collected.{Amount, together, collected};
ghost use Rattle.crush_since.specs.CollectedSeen.{added, item_data, use_amount, use_data};
ghost use Rattle.crush_since.specs.Grouped.{grouped, with_first};

use std::alloc::{AllocError, Global};

/// What uses a class: a device of the old map, a device of the new map, or a step of a rule.
#[derive(Clone, Copy, Debug)]
pub(crate) enum Source {
    Old,
    New,
    Rule,
}

/// One use of a class: either a device that has the class, or a step of a rule that takes the
/// class.
#[derive(Clone, Copy, Debug)]
pub(crate) struct ClassItem<'a> {
    pub name: &'a str,
    pub source: Source,
    /// The weight of the device in units of 1/65536; 0 for a step of a rule.
    pub weight: u32,
}

/// What two maps say about a class.
#[derive(Clone, Copy, Debug)]
pub(crate) struct ClassUse<'a> {
    pub name: &'a str,
    /// The total weight of the class's devices in the old map, in units of 1/65536.
    pub old_weight: u128,
    pub new_weight: u128,
    /// The number of devices of the old map that have the class.
    pub old_devices: u128,
    pub new_devices: u128,
    /// The number of steps of rules that take the class.
    pub takes: u128,
}

impl<'a> ClassUse<'a> {
    fn of(item: &ClassItem<'a>) -> ClassUse<'a>
        ensures data { use_data result ≡ item_data item.now }
        ensures low { (k : Amount) → use_amount result k < 2 ^ 32 }
    {
        let weight = item.weight as u128;
        match item.source {
            Source::Old => ClassUse {
                name: item.name,
                old_weight: weight,
                new_weight: 0,
                old_devices: 1,
                new_devices: 0,
                takes: 0,
            },
            Source::New => ClassUse {
                name: item.name,
                old_weight: 0,
                new_weight: weight,
                old_devices: 0,
                new_devices: 1,
                takes: 0,
            },
            Source::Rule => ClassUse {
                name: item.name,
                old_weight: 0,
                new_weight: 0,
                old_devices: 0,
                new_devices: 0,
                takes: 1,
            },
        }
    }

    fn with(self, item: &ClassItem<'a>) -> ClassUse<'a>
        requires { (k : Amount) → use_amount self k + 2 ^ 32 < 2 ^ 128 }
        ensures data { use_data result ≡ together (item_data item.now) (use_data self.entry) }
        ensures low { (k : Amount) → use_amount result k ≤ use_amount self.entry k + 2 ^ 32 }
    {
        let more = ClassUse::of(item);
        ClassUse {
            name: self.name,
            old_weight: more.old_weight + self.old_weight,
            new_weight: more.new_weight + self.new_weight,
            old_devices: more.old_devices + self.old_devices,
            new_devices: more.new_devices + self.new_devices,
            takes: more.takes + self.takes,
        }
    }
}

/// Returns the classes that the items use. Each class comes once, with the sums of what its items
/// add to each field of [`ClassUse`]. The classes are in ascending order of their names.
pub(crate) fn collected<'a>(
    alloc: Global,
    items: Vec<ClassItem<'a>>,
) -> Result<Vec<ClassUse<'a>>, AllocError>
    ensures { IfOk result (λ uses. each use_data uses.items ≡ collected (each item_data items.entry.items)) }
{
    let mut items = items;
    items.sort_unstable_by_key(|item| item.name);
    let mut uses = grouped(alloc, items.as_slice())?;
    uses.reverse();
    Ok(uses)
}

/// Returns the classes that the items use, each once. The items must be sorted by the names of
/// their classes, and the classes are returned in descending order of their names.
fn grouped<'a>(alloc: Global, items: &[ClassItem<'a>]) -> Result<Vec<ClassUse<'a>>, AllocError>
    ensures { IfOk result (λ uses. reverse (each use_data uses.items) ≡ grouped (each item_data items.now)) }
{
    let mut done = Vec::new(alloc);
    let count = items.len();
    if count == 0 {
        return Ok(done);
    }
    let last = item_at(items, count - 1);
    let mut current = ClassUse::of(last);
    for back in 1..count {
        let item = item_at(items, count - 1 - back);
        current = next(current, item, &mut done)?;
    }
    done.push(current)?;
    Ok(done)
}

/// Adds an item to the classes. If the item uses the current class, adds the item to this class,
/// and returns the class. Otherwise the current class is complete: appends it to `done`, and
/// returns the item's class as the new current class.
fn next<'a>(
    current: ClassUse<'a>,
    item: &ClassItem<'a>,
    done: &mut Vec<ClassUse<'a>>,
) -> Result<ClassUse<'a>, AllocError>
    requires { (k : Amount) → use_amount current k + 2 ^ 32 < 2 ^ 128 }
    ensures next { IfOk result (λ next. use_data next ∷ reverse (each use_data done.new.items)
        ≡ with_first (item_data item.now) (use_data current.entry ∷ reverse (each use_data done.old.items))) }
    ensures low { IfOk result (λ next. (k : Amount) → use_amount next k ≤ use_amount current.entry k + 2 ^ 32) }
{
    if same_name(current.name, item.name) {
        return Ok(current.with(item));
    }
    done.push(current)?;
    Ok(ClassUse::of(item))
}

fn same_name(a: &str, b: &str) -> bool
    ensures { result ≡ bytes_eq a.now b.now }
{
    a.as_bytes() == b.as_bytes()
}

fn item_at<'b, 'a>(items: &'b [ClassItem<'a>], at: usize) -> &'b ClassItem<'a>
    requires { at < length items.now }
    ensures { result.now ≡ get_or items.now at result.now }
{
    &items[at]
}
