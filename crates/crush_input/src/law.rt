//! A law about the map files of verbs: the contract of a function that does nothing at run time.

ghost use Rattle.crush_input.specs.VerbMapLaws.{FirstMapsAreMaps, OtherMapsAreMaps, VerbMapsMayBeMaps};

/// States that if a verb's run succeeds, then the bytes that
/// [`read_verb_map`](crate::read_verb_map) returned for the run's files are maps that the verb can
/// use. Such a map is the text of a map without scripts. If the verb requires complete maps, the
/// last line of the text that isn't blank is `# end crush map`.
///
/// The contract of a run says that if the run succeeds, the first map and the scripts after it are
/// a job, and the bytes of the second map are the text of a map. The law says what follows from
/// this for the bytes.
///
/// The law also states that each map that the verb can use has the properties that `read_verb_map`
/// tests. So these tests refuse no such map.
pub fn maps_of_runs_are_verb_maps()
    ensures first { FirstMapsAreMaps }
    ensures other { OtherMapsAreMaps }
    ensures screened { VerbMapsMayBeMaps }
{}
