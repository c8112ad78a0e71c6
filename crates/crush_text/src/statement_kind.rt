//! The kinds of the statements of a map's text. The first word of a statement decides its kind.

use crush_units::TypeId;

/// The kind of the statement that a word begins. This type is public only because definitions in
/// the contract of [`read_map`](crate::read_map) use it.
#[derive(Clone, Copy)]
pub enum StatementKind {
    /// `tunable`
    Tunable,
    /// `device`
    Device,
    /// `type`
    Type,
    /// A bucket. The word is the name of the bucket's type, and the field is the number of this
    /// type.
    Bucket(TypeId),
    /// `rule`
    Rule,
}
