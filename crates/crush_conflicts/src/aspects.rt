//! Sets of aspects of an item.

ghost use Rattle.std.specs.Prelude.{◌≡◌};
ghost use Rattle.crush_conflicts.specs.Aspects.{is_some_aspect, no_aspects, of_both, of_either, of_first_alone, only_presence};

/// A set of aspects of an item. An aspect is one of the six things that a map says about an item:
/// whether the item exists, its type, its place, its weight, its name or its class. Each field is
/// about one aspect, and is true if the set has this aspect.
#[derive(Clone, Copy, Debug, PartialEq, Eq)]
pub(crate) struct Aspects {
    /// Whether the map has the item.
    pub presence: bool,
    /// The type of the item.
    pub kind: bool,
    /// The bucket that holds the item.
    pub place: bool,
    /// The weight of a device. A bucket has no weight of its own.
    pub weight: bool,
    pub name: bool,
    pub class: bool,
}

impl Aspects {
    pub(crate) fn none() -> Aspects
        ensures { result ≡ no_aspects }
    {
        Aspects {
            presence: false,
            kind: false,
            place: false,
            weight: false,
            name: false,
            class: false,
        }
    }

    /// Returns the set that has only the aspect `presence`. If a map doesn't have an item, then the
    /// item has only this aspect there: the map says only that the item doesn't exist.
    pub(crate) fn presence() -> Aspects
        ensures { result ≡ only_presence }
    {
        Aspects {
            presence: true,
            ..Aspects::none()
        }
    }

    /// Returns the aspects that are in both sets.
    pub(crate) fn and(self, other: Aspects) -> Aspects
        ensures { result ≡ of_both self other }
    {
        Aspects {
            presence: self.presence && other.presence,
            kind: self.kind && other.kind,
            place: self.place && other.place,
            weight: self.weight && other.weight,
            name: self.name && other.name,
            class: self.class && other.class,
        }
    }

    /// Returns the aspects that are in one of the sets, or in both.
    pub(crate) fn or(self, other: Aspects) -> Aspects
        ensures { result ≡ of_either self other }
    {
        Aspects {
            presence: self.presence || other.presence,
            kind: self.kind || other.kind,
            place: self.place || other.place,
            weight: self.weight || other.weight,
            name: self.name || other.name,
            class: self.class || other.class,
        }
    }

    /// Returns the aspects that are in this set, but not in the other set.
    pub(crate) fn without(self, other: Aspects) -> Aspects
        ensures { result ≡ of_first_alone self other }
    {
        Aspects {
            presence: self.presence && !other.presence,
            kind: self.kind && !other.kind,
            place: self.place && !other.place,
            weight: self.weight && !other.weight,
            name: self.name && !other.name,
            class: self.class && !other.class,
        }
    }

    /// Whether the set has at least one aspect.
    pub(crate) fn is_some(self) -> bool
        ensures { result ≡ is_some_aspect self }
    {
        self.presence || self.kind || self.place || self.weight || self.name || self.class
    }
}
