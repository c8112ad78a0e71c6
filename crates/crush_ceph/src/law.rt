//! The laws about the commands of Ceph in the text that `ceph_text` returns: these commands do the
//! same as the edits.

ghost use Rattle.crush_ceph.specs.LawCommands.{CommandsDoTheEdits, CommandsDoTheSteps};
ghost use Rattle.crush_ceph.specs.LawLines.{EachLineMeansItsEdits, LinesMeanTheEdits};

/// A law: the commands in the text of [`ceph_text`](crate::ceph_text) do exactly the given edits,
/// each edit once, and in the same order. Each edit has the form in which Ceph accepts it, so a
/// `set` of a device that no bucket holds has become an `add`. The text may also have commands
/// `reweight-all`, which do none of the given edits.
pub fn commands_do_the_edits()
    ensures steps { CommandsDoTheSteps }
    ensures edits { CommandsDoTheEdits }
{}

/// A law about what Ceph does if a shell runs the lines in the text of
/// [`ceph_text`](crate::ceph_text). The line of a command makes exactly the edits of this command,
/// in the same order. So all lines, one after the other, make exactly all edits, each in the form
/// in which Ceph accepts it.
///
/// The law is only about edits that meet three conditions. A command of a script can express the
/// edit. If the edit is a `move`, its location has a pair. If the edit sets or removes the class of
/// a device, the device isn't called `all` or `any`.
pub fn lines_mean_the_edits()
    ensures line { EachLineMeansItsEdits }
    ensures edits { LinesMeanTheEdits }
{}
