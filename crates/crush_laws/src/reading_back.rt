//! The laws that the printed text of a map and the output of a run are read back as the same map.

ghost use Rattle.crush_laws.specs.ReadingBack.{CommentsBehindAreNoMatter, InOrderIsTheSame, PrintedTextsAreReadBack, ReadBackPrintsAlike, TypesAreReadInOrder};
ghost use Rattle.crush_laws.specs.Written.{HistoryLinesAreComments, WhatIsWrittenIsReadBack, HistoryTextsAreReadBack};
ghost use Rattle.crush_laws.specs.Written.{JobsStayLawful, JobTextsAreReadBack, JobMapsAreReadBack, JobTextsRunOn, PrintedMapsRunOn};

/// A map is *lawful* if its table is lawful: for example, no id and no name occurs twice. This law
/// says that the printed text of a lawful map is read back as that map. The weights in the text may
/// be rounded or exact.
///
/// - `read`, `order` and `same`: the map that is read has the same rows as the printed map, perhaps
/// in another order, and each bucket has the same items in the same order. Tunables and rules are
/// the same. The types are the same too, but in the order of their numbers.
/// - `again`: if the map that was read is printed, the result is the same text.
/// - `behind`: if comment lines follow the text, the same map is read, except that this clause
/// doesn't say in which order its types are.
/// - `on`: sections of valid scripts may follow the text and the comment lines. If all these bytes
/// together aren't more than a job may have, then they are the job of the map that is read, with
/// these scripts.
pub fn what_is_printed_is_read_back()
    ensures read { PrintedTextsAreReadBack }
    ensures behind { CommentsBehindAreNoMatter }
    ensures on { PrintedMapsRunOn }
    ensures order { TypesAreReadInOrder }
    ensures same { InOrderIsTheSame }
    ensures again { ReadBackPrintsAlike }
{}

/// The law that the output of a run is read back as the map after the run. The first three clauses
/// require that the names and the edits in the history have the form that the types of the code
/// ensure (`IsNamedHistory`; for `history` also `IsCall`). The other clauses are about a job whose
/// scripts have run one after the other, and about the map and the history after this run.
///
/// - `comments`: the lines of a history are comments.
/// - `read`: the printed text of a lawful map, followed by the lines of any history, is read back
/// as this map.
/// - `history`: the printed text of the map after a history, followed by the lines of this history,
/// is read back as this map.
/// - `lawful`: the map after a job is lawful.
/// - `job` and `map`: the output of a job, with the lines of the history (`job`) or without them
/// (`map`), is read back as the map after the job.
/// - `on`: the output of a job, with the lines of the history, can be the beginning of a further
/// job. Sections of further valid scripts may follow the output. If all these bytes together aren't
/// more than a job may have, then they are the job of the map that is read from the output, with
/// these scripts.
pub fn what_is_written_is_read_back()
    ensures comments { HistoryLinesAreComments }
    ensures read { WhatIsWrittenIsReadBack }
    ensures history { HistoryTextsAreReadBack }
    ensures lawful { JobsStayLawful }
    ensures job { JobTextsAreReadBack }
    ensures map { JobMapsAreReadBack }
    ensures on { JobTextsRunOn }
{}
