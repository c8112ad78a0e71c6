//! The law that each text is the text of one map or has one flaw.

ghost use Rattle.crush_laws.specs.MapOrFlaw.{WordsAreJudgedByTheTable, AFlawExcludesTheMap, AtMostOneFlaw, FlawsSayWhatIsExpected, ExpectedWordsGoOn, NoOtherWordGoesOn, SameWordsSameFlaw, AtMostOneMap, EachMapIsLawful, MapsAreTheLawfulTexts, MapsAreTheLawfulEnds, AMapOrAFlaw};

/// The law that bytes either are the text of one lawful map or have one flaw, and never both. A
/// *flaw* is the first fault of a text, with its place.
///
/// - `either`, `excludes`, `map`, `flaw` and `lawful`: bytes either are the text of exactly one
/// map, which is lawful, or have exactly one flaw.
/// - `table`: the table of faults (`Rows.antt` of `crush_text`) has a condition for each fault. If
/// several of these conditions hold for a word, the word has the fault with the least number.
/// - `admitted` and `ends`: the table of faults isn't too strict. Bytes are the text of a map if
/// and only if each word has the form that the grammar requires at its place, and the words build
/// this map, which is lawful. For `admitted`, it must be lawful after each line. For `ends`, it
/// must only be lawful at the end of the text.
/// - `says`, `expected` and `only`: a flaw says which words are expected at its place. After each
/// of these words, and after no other word, the text can go on without a fault in this word or in
/// an earlier word.
/// - `same`: the flaw depends only on the words before the faulty word, on the faulty word, and on
/// whether the word after the faulty word is `weight`.
pub fn a_text_has_one_map_or_one_flaw()
    ensures table { WordsAreJudgedByTheTable }
    ensures excludes { AFlawExcludesTheMap }
    ensures flaw { AtMostOneFlaw }
    ensures says { FlawsSayWhatIsExpected }
    ensures expected { ExpectedWordsGoOn }
    ensures only { NoOtherWordGoesOn }
    ensures same { SameWordsSameFlaw }
    ensures map { AtMostOneMap }
    ensures lawful { EachMapIsLawful }
    ensures admitted { MapsAreTheLawfulTexts }
    ensures ends { MapsAreTheLawfulEnds }
    ensures either { AMapOrAFlaw }
{}
