//! Laws about scripts. A *law* is a proved statement about definitions. The laws say that printed
//! edits and printed scripts are read back as the same edits and scripts, and that a fault names
//! the first word of its line that doesn't fit. Each law is the contract of a function that does
//! nothing at run time.

ghost use Rattle.crush_script.specs.FirstMisfit.{MisfitsOfCommands, MisfitsOfOperators};
ghost use Rattle.crush_script.specs.Printed.{PlacedIsRead, PrintedIsRead, ReadIsSaid};
ghost use Rattle.crush_script.specs.ScriptsText.{JobsAreReadBack, MapTextsHaveNoSection, ReadScriptsAreSuch};

/// States that an edit is read back from its printed line. If a command can express an edit, and
/// the edit is printed as in a history, then the printed line is parsed as the same edit. The law
/// also states that a command can express each edit that was read from a script. So the edits of a
/// run's history can be written as a script, and run again.
pub fn printed_is_read()
    ensures printed { PrintedIsRead }
    ensures read { ReadIsSaid }
{}

/// States that each edit that [`crush_edits::Edit::place`] can return is read back from its printed
/// line as the same edit. In such an edit, the device with the id N has the name `osd.N`.
pub fn placed_is_read()
    ensures { PlacedIsRead }
{}

/// States that printed scripts are read back. If a map's text is followed by scripts, printed as
/// sections, then the result is read back as a job with this map and these scripts.
///
/// Three conditions must hold. First, a job can have these scripts: for example, there are at most
/// 16 scripts, and no two of them have the same operator. Second, the last line of the map's text
/// ends with a line feed. Third, the map's text and the sections together have at most 16,777,216
/// bytes. The law also states that the scripts of each job meet the first condition, and that no
/// line of a map's text begins with `%`.
pub fn scripts_are_read_back()
    ensures map { MapTextsHaveNoSection }
    ensures read { JobsAreReadBack }
    ensures such { ReadScriptsAreSuch }
{}

/// States that the word that a [`Misfit`](crate::Misfit) names is the first word of the line that
/// doesn't fit.
///
/// Take the words of the line that come before the named word. If a word that is required here
/// follows them, the result is the beginning of a line that can be read. If any other word follows
/// them, the line can't be read, whatever words come after it. If the fault says that the line may
/// or must end here, then the words before the named word are by themselves a line that can be
/// read. The same is true of lines `%operator NAME`.
pub fn misfits_are_first()
    ensures commands { MisfitsOfCommands }
    ensures operators { MisfitsOfOperators }
{}
