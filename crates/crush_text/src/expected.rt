//! What the grammar of a map's text expects at a place.

ghost use Rattle.std.specs.Prelude.{◌≡◌};
ghost use Rattle.crush_text.specs.Expected.{keyword_word};

/// A keyword that the grammar requires at a place. No other word is allowed at this place.
#[derive(Clone, Copy, Debug, PartialEq, Eq)]
pub enum Keyword {
    /// `{`
    Brace,
    /// `id`
    Id,
    /// `class`
    Class,
    /// `type`
    Type,
    /// `hash`
    Hash,
    /// `weight`
    Weight,
    /// `min_size`
    MinSize,
    /// `max_size`
    MaxSize,
}

impl Keyword {
    /// Returns the keyword as it is written in a map's text.
    pub fn text(self) -> &'static str
        ensures { result.now ≡ keyword_word self }
    {
        match self {
            Keyword::Brace => "{",
            Keyword::Id => "id",
            Keyword::Class => "class",
            Keyword::Type => "type",
            Keyword::Hash => "hash",
            Keyword::Weight => "weight",
            Keyword::MinSize => "min_size",
            Keyword::MaxSize => "max_size",
        }
    }
}

/// An optional part of the text that could still follow at a place, because the words before the
/// place have left it out. For example, `class` and a name could follow the line of a device
/// without a class.
#[derive(Clone, Copy, Debug, PartialEq, Eq)]
pub enum Optional {
    /// No optional part could still follow.
    Nothing,
    /// `class` and the name of a class.
    Class,
    /// `hash` and the number 0.
    Hash,
    /// `weight` and a weight.
    Weight,
    /// `max_size` and a number.
    MaxSize,
    /// `min_size` and a number, or `max_size` and a number, or both in this order.
    Sizes,
}

/// What the grammar expects at the place of a fault. Some variants have a field `or`, which says
/// whether an optional part of the text could begin at the same place. If so, each word with which
/// this part can begin is also allowed.
#[derive(Clone, Copy, Debug, PartialEq, Eq)]
pub enum Expected {
    /// The first word of a statement.
    Statement {
        /// Whether the text has a bucket or a rule before this place. If so, only buckets and rules
        /// may follow.
        late: bool,
        /// The optional part that could still follow.
        or: Optional,
    },
    /// The keyword in this field, and no other word.
    Keyword(Keyword),
    /// A number from 0 to `most`.
    Number {
        /// The largest number that is allowed.
        most: u32,
    },
    /// The name of a tunable.
    TunableName,
    /// The number of a new type, from 0 to 65535.
    TypeNumber,
    /// The name of a new type.
    TypeName,
    /// The id of a new device, from 0 to 2147483647.
    DeviceId,
    /// The name of a new device or bucket.
    NewName,
    /// The id of a bucket, or the id that a bucket has for a class: `-` and a number from 1 to
    /// 2147483648.
    BucketId,
    /// The class of a device, or the class in a `take` step.
    Class,
    /// The class in a bucket's line `id -N class CLASS`.
    IdClass,
    /// `id` or `alg`.
    IdOrAlg,
    /// The name of an algorithm.
    Algorithm,
    /// A weight.
    Weight {
        /// Whether the weight is that of a device. If it isn't, the weight is that of a bucket.
        device: bool,
    },
    /// The name of an item: a declared device, or a bucket whose closing brace was read before.
    ItemName,
    /// `item` or `}`.
    ItemOrEnd {
        /// The optional part that could still follow.
        or: Optional,
    },
    /// The name of a new rule.
    RuleName,
    /// `id` or `ruleset`.
    IdOrRuleset,
    /// The id of a new rule, from 0 to 2147483647.
    RuleId,
    /// The kind of pools that a rule serves, for example `replicated`.
    RuleType,
    /// `step` or `}`.
    StepOrEnd {
        /// The optional part that could still follow.
        or: Optional,
    },
    /// The first word of a step, after `step`.
    StepWord,
    /// The name of the bucket that a `take` step takes. The closing brace of this bucket must come
    /// before the step.
    TakenBucket,
    /// `firstn` or `indep`.
    FirstnOrIndep,
    /// The number of items that a step chooses, from -2147483648 to 2147483647. If the number is 0
    /// or below, the size of the pool is added to it.
    Count,
    /// The name of the type of the items that a step chooses. This type must be declared.
    StepType,
    /// Nothing is expected: memory ran out at this place.
    Memory,
}
