//! The law that the sentence about a fault of a text names the words that may follow.

ghost use Rattle.crush_laws.specs.Quoted.{NamedWordsMayFollow, SameAlgorithmsAreNamed, WordsThatFollowAreNamed};

/// The law that the sentence about a fault of a text names the words that may follow the words
/// before the fault. A sentence has each word that it names between backquotes. Some sentences name
/// no word, and only describe a kind of words, such as `a number`.
///
/// - `named`: each named word may follow the words before the fault. The exception is a word that
/// begins one more thing, such as a tunable or a step, although the map, the bucket or the rule
/// already has as many of these things as it may have.
/// - `only`: if a sentence names words, then each word that may follow is one of them, or the
/// sentence describes this word. It describes words as the name of a type, or as words that begin
/// with `set_`.
/// - `algorithms`: the sentence about an algorithm that isn't supported names the same words as the
/// sentence about a missing algorithm.
pub fn a_sentence_names_the_expected_words()
    ensures named { NamedWordsMayFollow }
    ensures only { WordsThatFollowAreNamed }
    ensures algorithms { SameAlgorithmsAreNamed }
{}
