//! Tests the reasons that are printed for the faults and the refused calls of jobs. The expected
//! values follow the forms in docs/user/FORMATS.md and the sentences in docs/user/RULES.md.

ghost use Rattle.std.specs.Prelude.{◌<◌, length};
ghost use Rattle.crush_history.specs.Entries.{AreOf};

use crate::histories::entries_of;
use crate::texts::assert_text;
use crush_history::{Entry, Script};
use crush_map::{CrushMap, Hashing};
use crush_reasons::{
    JobLines, Locates, Origin, ceph_text, count_makings, created_text, explained_job,
    explained_text, fault_line, fault_text, flaw_place_text, made_text, shown_byte, written_text,
};
use crush_script::{Job, JobFault, read_job};
use std::alloc::Global;
use std::process::Abort;

const MISSPELT: &[u8] =
    b"# begin crush map\ntunable choose_total_tries 50\n\n# devices\ndevice 0 osd.0\ndevice 1 osd.1\ndevice 2 osd.2\n\n# types\ntype 0 osd\ntype 1 host\ntype 3 rack\ntype 11 root\n\n# buckets\nhost h1 {\n\tid -2\t\t# do not change unnecessarily\n\t# weight 2.00000\n\talg straw2\n\thash 0\t# rjenkins1\n\titem osd.0 weight 1.00000\n\titem osd.1 weight 1.00000\n}\nhots h2 {\n\tid -3\t\t# do not change unnecessarily\n\t# weight 0.50000\n\talg straw2\n\thash 0\t# rjenkins1\n\titem osd.2 weight 0.50000\n}\nroot default {\n\tid -1\t\t# do not change unnecessarily\n\t# weight 2.50000\n\talg straw2\n\thash 0\t# rjenkins1\n\titem h1 weight 2.00000\n\titem h2 weight 0.50000\n}\n\n# rules\n\n# end crush map\n";

const JOB: &[u8] =
    b"# begin crush map\ntunable choose_total_tries 50\n\n# devices\ndevice 0 osd.0\ndevice 1 osd.1\ndevice 2 osd.2\n\n# types\ntype 0 osd\ntype 1 host\ntype 3 rack\ntype 11 root\n\n# buckets\nhost h1 {\n\tid -2\t\t# do not change unnecessarily\n\t# weight 2.00000\n\talg straw2\n\thash 0\t# rjenkins1\n\titem osd.0 weight 1.00000\n\titem osd.1 weight 1.00000\n}\nhost h2 {\n\tid -3\t\t# do not change unnecessarily\n\t# weight 0.50000\n\talg straw2\n\thash 0\t# rjenkins1\n\titem osd.2 weight 0.50000\n}\nroot default {\n\tid -1\t\t# do not change unnecessarily\n\t# weight 2.50000\n\talg straw2\n\thash 0\t# rjenkins1\n\titem h1 weight 2.00000\n\titem h2 weight 0.50000\n}\n\n# rules\n\n# end crush map\n%operator a\nreweight osd.0 2\nreweight osd.0 2\nrm default\nmove h2 rack=r1 root=default\n";

fn fault_of(rt: &(impl Abort + AllocGlobal), bytes: &[u8]) -> JobFault {
    match read_job(rt.alloc(), Hashing::plain(), bytes) {
        Ok(job) => {
            drop(job);
            panic!(rt; "a job")
        }
        Err(fault) => fault,
    }
}

fn assert_listed(rt: &(impl Abort + AllocGlobal), origin: Origin<'_>, bytes: &[u8], told: &[u8]) {
    assert!(rt; bytes.len() <= 10_000);
    let fault = fault_of(rt, bytes);
    let text = fault_text(rt.alloc(), origin, bytes, fault).expect(rt, "no memory");
    assert_text(rt, text.as_slice(), told);
}

#[test]
fn a_fault_is_told_with_its_place(rt: HostRuntime) {
    assert_listed(
        &rt,
        Origin {
            name: b"",
            before: 0,
        },
        MISSPELT,
        b"  line 24, column 1\n    hots h2 {\n    ^\n  no type named `hots` is declared above\n",
    );
    assert_listed(
        &rt,
        Origin {
            name: b"alice.txt",
            before: 0,
        },
        b"# nothing\n%operator alice\nfly\tx\n",
        b"  alice.txt line 3, column 1\n    fly x\n    ^\n  `fly` is not a command: see --help\n",
    );
}

fn assert_place(rt: &(impl Abort + AllocGlobal), origin: Origin<'_>, bytes: &[u8], told: &[u8]) {
    assert!(rt; bytes.len() <= 10_000);
    let JobFault::Text(fault) = fault_of(rt, bytes) else {
        panic!(rt; "no fault of a text")
    };
    let text = flaw_place_text(rt.alloc(), origin, bytes, fault).expect(rt, "no memory");
    assert_text(rt, text.as_slice(), told);
}

#[test]
fn the_place_of_a_flaw_is_told_alone(rt: HostRuntime) {
    let origin = Origin {
        name: b"m",
        before: 0,
    };
    assert_place(
        &rt,
        origin,
        MISSPELT,
        b"  m line 24, column 1\n    hots h2 {\n    ^\n",
    );
}

const CUT: &[u8] = b"type 1 host\nhost h1 {\n\tid -2\n%operator a\n";

const ALGO: &[u8] = b"type 1 host\nhost h1 {\n\tid -2\n\talgo straw2\n}\n";

#[test]
fn what_does_not_fit_is_told(rt: HostRuntime) {
    let origin = Origin {
        name: b"",
        before: 0,
    };
    assert_listed(
        &rt,
        origin,
        b"%operator a\nreweight osd.0 1,5\n",
        b"  line 2, column 16\n    reweight osd.0 1,5\n                   ^\n  reweight NAME WEIGHT: `1,5` is not a weight: did you mean 1.5?\n",
    );
    assert_listed(
        &rt,
        origin,
        CUT,
        b"  line 3, column 5\n     id -2\n        ^\n  host h1, which begins at line 2, is not closed\n",
    );
    assert_listed(
        &rt,
        origin,
        ALGO,
        b"  line 4, column 2\n     algo straw2\n     ^\n  unexpected word: expected `id` or `alg` (in host h1, which begins at line 2)\n",
    );
}

const BELOW: &[u8] =
    b"type 1 host\ntype 2 root\nroot default {\nid -1\nalg straw2\nitem h1\n}\nhost h1 {\nid -2\nalg straw2\n}\n";

#[test]
fn a_misspelt_class_and_a_bucket_below_are_told(rt: HostRuntime) {
    let origin = Origin {
        name: b"",
        before: 0,
    };
    assert_listed(
        &rt,
        origin,
        b"device 0 osd.0 clas ssd\n",
        b"  line 1, column 16\n    device 0 osd.0 clas ssd\n                   ^\n  no type named `clas` is declared above; did you mean `class`?\n",
    );
    assert_listed(
        &rt,
        origin,
        BELOW,
        b"  line 6, column 6\n    item h1\n         ^\n  `h1` is defined below, at line 8: move that bucket up\n",
    );
}

/// The text of a map whose rule takes a bucket that is defined after the rule.
const TAKEN_BELOW: &[u8] =
    b"type 1 root\nrule r {\nid 0\ntype replicated\nstep take default\nstep emit\n}\nroot default {\nid -1\nalg straw2\n}\n";

#[test]
fn a_taken_bucket_below_is_told(rt: HostRuntime) {
    let origin = Origin {
        name: b"",
        before: 0,
    };
    assert_listed(
        &rt,
        origin,
        TAKEN_BELOW,
        b"  line 5, column 11\n    step take default\n              ^\n  `default` is defined below, at line 8: move that bucket up\n",
    );
}

#[test]
fn texts_that_are_no_maps_are_named(rt: HostRuntime) {
    let origin = Origin {
        name: b"",
        before: 0,
    };
    assert_listed(
        &rt,
        origin,
        b"\xEF\xBB\xBFtype 1 host\n",
        b"  line 1, column 1\n    ???type 1 host\n    ^\n  the text begins with a byte order mark: save it without one\n",
    );
    assert_listed(
        &rt,
        origin,
        b"\x1F\x8B\x08\n",
        b"  line 1, column 1\n    ???\n    ^\n  this file is compressed with gzip: unpack it first\n",
    );
    assert_listed(
        &rt,
        origin,
        b"ID  CLASS  WEIGHT\n",
        b"  line 1, column 1\n    ID  CLASS  WEIGHT\n    ^\n  this looks like the output of `ceph osd tree`: a text map is the output of `crushtool -d`\n",
    );
}

#[test]
fn numbers_and_words_that_are_expected_are_told(rt: HostRuntime) {
    let origin = Origin {
        name: b"",
        before: 0,
    };
    assert_listed(
        &rt,
        origin,
        b"tunable a 4294967296\n",
        b"  line 1, column 11\n    tunable a 4294967296\n              ^\n  number out of range: 0 to 4294967295\n",
    );
    assert_listed(
        &rt,
        origin,
        b"tunable a -1\n",
        b"  line 1, column 11\n    tunable a -1\n              ^\n  number out of range: 0 to 4294967295\n",
    );
    assert_listed(
        &rt,
        origin,
        b"type x host\n",
        b"  line 1, column 6\n    type x host\n         ^\n  expected a whole number from 0 to 65535\n",
    );
    assert_listed(
        &rt,
        origin,
        b"type 1 host\nhost h1 id",
        b"  line 2, column 9\n    host h1 id\n            ^\n  unexpected word: expected `{`\n",
    );
    assert_listed(
        &rt,
        origin,
        b"device 0 osd.0\ndevice 1",
        b"  line 2, column 8\n    device 1\n           ^\n  the text ends too early: expected a name\n",
    );
}

fn joined(rt: &(impl Abort + AllocGlobal), parts: &[&[u8]]) -> Vec<u8> {
    parts.concat(rt.alloc()).expect(rt, "no memory")
}

/// Lines of a script that are faulty, each with the reason that is printed for it.
const LINES: &[(&[u8], &[u8])] = &[
    (b"add-bucket h1", b"add-bucket NAME TYPE: TYPE is missing"),
    (
        b"reweight osd.0",
        b"reweight NAME WEIGHT: WEIGHT is missing",
    ),
    (b"begin at", b"begin at N: N is missing"),
    (b"%operator", b"%operator NAME: NAME is missing"),
    (
        b"%operato b",
        b"a line that begins with % must be `%operator NAME`",
    ),
    (b"commit", b"no batch is open: start one with `begin`"),
];

/// Lines of a script, each with the column of the word that doesn't fit, and with the reason that
/// is printed.
const MARKED: &[(&[u8], u64, &[u8])] = &[
    (
        b"add 0 1 host=h1",
        5,
        b"add osd.N WEIGHT TYPE=NAME ..: `0` is not a device: did you mean osd.0?",
    ),
    (
        b"add osd.x 1 host=h1",
        5,
        b"add osd.N WEIGHT TYPE=NAME ..: `osd.x` is not a device: write osd.N with N from 0 to 2147483647",
    ),
    (
        b"reweight h1 70000",
        13,
        b"reweight NAME WEIGHT: `70000` is too large: weights are in TiB, at most 65535.99998",
    ),
    (
        b"reweight h1 4000787030016",
        13,
        b"reweight NAME WEIGHT: `4000787030016` is too large: weights are in TiB, at most 65535.99998",
    ),
    (
        b"reweight h1 4T",
        13,
        b"reweight NAME WEIGHT: `4T` is not a weight: weights are in TiB, without a unit: a disk sold as 4 TB weighs 3.63869",
    ),
    (
        b"reweight h1 \"1.5\"",
        13,
        b"reweight NAME WEIGHT: `\"1.5\"` is not a weight: did you mean 1.5?",
    ),
    (
        b"reweight h1 .5",
        13,
        b"reweight NAME WEIGHT: `.5` is not a weight: did you mean 0.5?",
    ),
    (
        b"reweight h1 1e3",
        13,
        b"reweight NAME WEIGHT: `1e3` is not a weight: write a number such as 1.5",
    ),
    (
        b"rm 'h1'",
        4,
        b"rm NAME: `'h1'` is not a name: did you mean h1?",
    ),
    (
        b"rm a:b",
        4,
        b"rm NAME: `a:b` is not a name: use letters, digits, `-`, `_` and `.`, at most 255",
    ),
    (
        b"move h1 host",
        9,
        b"move NAME TYPE=NAME ..: `host` is not a pair: write TYPE=NAME without spaces",
    ),
    (
        b"begin now",
        7,
        b"begin at N: unexpected word `now`: expected `at N` or the end of the line",
    ),
    (
        b"begin at x",
        10,
        b"begin at N: `x` is not a number of changes: expected 0 to 65536",
    ),
    (b"rm a b", 6, b"rm NAME: unexpected extra word `b`"),
    (
        b"rewieght h1 1",
        1,
        b"`rewieght` is not a command: did you mean reweight?",
    ),
    (
        b"reweigt h1 1",
        1,
        b"`reweigt` is not a command: did you mean reweight?",
    ),
    (
        b"remvoe h1",
        1,
        b"`remvoe` is not a command: did you mean remove?",
    ),
    (b"ceph osd crush rm h1", 1, b"leave out `ceph osd crush`"),
];

/// Returns what is printed about line 2 of a job: the column if there is one, the text of the line,
/// the sign `^` below the column, and the reason.
fn told_of(
    rt: &(impl Abort + AllocGlobal),
    line: &[u8],
    column: Option<u64>,
    reason: &[u8],
) -> Vec<u8> {
    let head = match column {
        Some(column) => format!(in rt.alloc(); "  line 2, column {column}\n").expect(
            rt,
            "no memory",
        ),
        None => format!(in rt.alloc(); "  line 2\n").expect(rt, "no memory"),
    };
    let mut told = joined(rt, &[head.as_bytes(), b"    ", line, b"\n"]);
    if let Some(column) = column {
        for _done in 0..column.saturating_add(3) {
            told.push(b' ').expect(rt, "no memory");
        }
        told.extend_from_slice(b"^\n").expect(rt, "no memory");
    }
    joined(rt, &[told.as_slice(), b"  ", reason, b"\n"])
}

fn assert_line_told(
    rt: &(impl Abort + AllocGlobal),
    line: &[u8],
    column: Option<u64>,
    reason: &[u8],
) {
    let origin = Origin {
        name: b"",
        before: 0,
    };
    let job = joined(rt, &[b"%operator a\n", line, b"\n"]);
    let told = told_of(rt, line, column, reason);
    assert_listed(rt, origin, job.as_slice(), told.as_slice());
}

#[test]
fn a_word_that_does_not_fit_is_told(rt: HostRuntime) {
    for (line, reason) in LINES {
        assert_line_told(&rt, line, None, reason);
    }
    for (line, column, reason) in MARKED {
        assert_line_told(&rt, line, Some(*column), reason);
    }
}

const NEGATIVE: &[u8] =
    b"type 1 host\ntype 2 rack\nhost h1 {\nid -1\nalg straw2\n}\nrack r1 {\nid -2\nalg straw2\nitem h1 weight -32767.00000\n}\n";

#[test]
fn a_negative_weight_is_told_as_that_of_a_heavy_bucket(rt: HostRuntime) {
    let origin = Origin {
        name: b"",
        before: 0,
    };
    assert_listed(
        &rt,
        origin,
        NEGATIVE,
        b"  line 10, column 16\n    item h1 weight -32767.00000\n                   ^\n  crushtool -d prints a bucket's weight of 32768 and more as a negative number: write 0, and the sum of the bucket's items takes its place\n",
    );
}

#[test]
fn control_characters_are_not_shown(rt: HostRuntime) {
    assert_eq!(rt; shown_byte(b' '), b' ');
    assert_eq!(rt; shown_byte(b'~'), b'~');
    assert_eq!(rt; shown_byte(b'\t'), b' ');
    assert_eq!(rt; shown_byte(b'\r'), b' ');
    assert_eq!(rt; shown_byte(27), b'?');
    assert_eq!(rt; shown_byte(127), b'?');
    assert_eq!(rt; shown_byte(255), b'?');
}

#[test]
fn a_name_with_an_escape_is_told_without_it(rt: HostRuntime) {
    let origin = Origin {
        name: b"a\x1b[31m\t.txt",
        before: 0,
    };
    assert_listed(
        &rt,
        origin,
        b"%operator a\nfly x\n",
        b"  a?[31m .txt line 2, column 1\n    fly x\n    ^\n  `fly` is not a command: see --help\n",
    );
}

/// A job that was joined from a map and the scripts of two files. Each script comes after the line
/// that names its operator.
const JOINED: &[u8] = b"# nothing\n%operator alice\nrm x\n%operator bob\nrm y\nfly z\n";

/// A job like `JOINED`, but without the line `fly z`. The `%operator` line that was added before
/// the second script names the operator of the first script.
const DUPLICATE: &[u8] = b"# nothing\n%operator alice\nrm x\n%operator alice\nrm y\n";

#[test]
fn a_line_is_told_as_that_of_its_own_file(rt: HostRuntime) {
    let second = Origin {
        name: b"bob.txt",
        before: 4,
    };
    assert_listed(
        &rt,
        second,
        JOINED,
        b"  bob.txt line 2, column 1\n    fly z\n    ^\n  `fly` is not a command: see --help\n",
    );
    assert_listed(
        &rt,
        second,
        DUPLICATE,
        b"  bob.txt line 0\n    %operator alice\n  another operator above has this name: give one of the two files a line %operator NAME\n",
    );
}

fn line_of_fault(rt: &(impl Abort + AllocGlobal), bytes: &[u8]) -> usize {
    assert!(rt; bytes.len() <= 10_000);
    fault_line(bytes, fault_of(rt, bytes))
}

#[test]
fn the_line_of_a_fault_counts_in_the_job(rt: HostRuntime) {
    assert_eq!(rt; line_of_fault(&rt, MISSPELT), 24);
    assert_eq!(rt; line_of_fault(&rt, JOINED), 6);
}

fn assert_printed(
    rt: &(impl Abort + AllocGlobal),
    opening: &CrushMap<Global>,
    scripts: &[Script],
    entries: &[Entry],
    made: &[u8],
    told: &[u8],
)
    requires few { length entries.now < 100 }
    requires operators { AreOf (length scripts.now) entries.now }
{
    let first = opening.try_copy().expect(rt, "no memory");
    let second = opening.try_copy().expect(rt, "no memory");
    let commands = ceph_text(rt.alloc(), first, entries).expect(rt, "no memory");
    let reasons = explained_text(rt.alloc(), second, scripts, entries).expect(rt, "no memory");
    assert_text(rt, commands.as_slice(), made);
    assert_text(rt, reasons.as_slice(), told);
}

fn assert_answered(rt: &(impl Abort + AllocGlobal), job: &Job, made: &[u8], told: &[u8]) {
    let scripts = job.scripts.as_slice();
    assert_eq!(rt; scripts.len(), 1);
    let mut map = job.map.try_copy().expect(rt, "no memory");
    let entries = entries_of(rt, &mut map, scripts, 0);
    assert!(rt; entries.len() < 100);
    assert_printed(rt, &job.map, scripts, entries.as_slice(), made, told);
    drop(entries);
    drop(map);
}

#[test]
fn commands_and_reasons_are_told(rt: HostRuntime) {
    let job = read_job(rt.alloc(), Hashing::plain(), JOB).expect(&rt, "no job");
    assert_answered(
        &rt,
        &job,
        b"# 2 commands\nceph osd crush reweight osd.0 2.000000\nceph osd crush move h2 rack=r1 root=default\n",
        b"# 3 a rm default = refused NotEmpty 39\n  default holds 2 items: move or remove them first\n",
    );
    drop(job);
}

const RULED: &[u8] =
    b"device 0 osd.0\ndevice 1 osd.1\ntype 1 host\ntype 2 rack\ntype 3 root\nhost h1 {\nid -2\nalg straw2\nitem osd.0 weight 1.00000\n}\nhost h2 {\nid -3\nalg straw2\n}\nroot default {\nid -1\nalg straw2\nitem h1 weight 1.00000\n}\nroot spare {\nid -4\nalg straw2\n}\nrule fast {\nid 0\ntype replicated\nstep take spare\nstep emit\n}\n%operator a\nset osd.1 1 host=h1\nset osd.1 2 host=h2\nrm h3\nrm h1\nmove h2 root=default\nrm default\nrm spare\nmove default host=h2\nmove h1 rack=spare\nadd osd.0 1 host=h2\nbegin\nrename-bucket h1 h4\nrm h1\ncommit\n";

const RULED_MADE: &[u8] =
    b"# 3 commands\nceph osd crush add osd.1 1.000000 host=h1\nceph osd crush set osd.1 2.000000 host=h2\nceph osd crush move h2 root=default\n";

const RULED_TOLD: &[u8] =
    b"# 3 a rm h3 = refused NoSuchItem 2\n  h3 doesn't exist: did you mean h1?\n# 4 a rm h1 = refused NotEmpty 39\n  h1 holds 1 item: move or remove it first\n# 6 a rm default = refused NotEmpty 39\n  default holds 2 items: move or remove them first\n# 7 a rm spare = refused InUse 16\n  the rule fast takes spare\n# 8 a move default host=h2 = refused Loop 40\n  h2 is below default: a bucket can't be moved below itself\n# 9 a move h1 rack=spare = refused WrongType 22\n  spare is of type root, not rack\n# 10 a add osd.0 1.00000 host=h2 = refused AlreadyPlaced 17\n  osd.0 is already in h1: use set or create-or-move to move it\n# 11 a begin ; rename-bucket h1 h4 ; rm h1 ; commit = refused at 1 NoSuchItem 2\n  rm h1: h1 doesn't exist: did you mean h4?\n";

#[test]
fn each_is_told_of_the_map_before_it(rt: HostRuntime) {
    let job = read_job(rt.alloc(), Hashing::plain(), RULED).expect(&rt, "no job");
    assert_answered(&rt, &job, RULED_MADE, RULED_TOLD);
    drop(job);
}

const MISTYPED: &[u8] =
    b"type 0 osd\ntype 3 rack\ntype 1 host\nhost h1 {\nid -1\nalg straw2\n}\n%operator a\nmove h1 rakc=r1\nadd-bucket h2 HOST\nmove h1 root=r1\n";

const MISTYPED_TOLD: &[u8] =
    b"# 1 a move h1 rakc=r1 = refused NoSuchType 22\n  rakc is not a type of the map: did you mean rack?\n# 2 a add-bucket h2 HOST = refused NoSuchType 22\n  HOST is not a type of the map: did you mean host?\n# 3 a move h1 root=r1 = refused NoSuchType 22\n  root is not a type of the map\n";

#[test]
fn a_mistyped_type_is_told_with_the_type_that_is_meant(rt: HostRuntime) {
    let job = read_job(rt.alloc(), Hashing::plain(), MISTYPED).expect(&rt, "no job");
    assert_answered(&rt, &job, b"# 0 commands\n", MISTYPED_TOLD);
    drop(job);
}

/// A job whose batch has two commands. The first command creates the host `edge`, and the second
/// command uses this host.
const CREATING: &[u8] =
    b"device 0 osd.0\ntype 1 host\ntype 2 rack\nhost host1 {\nid -1\nalg straw2\nitem osd.0 weight 1\n}\nrack rack1 {\nid -2\nalg straw2\nitem host1 weight 1\n}\n%operator a\nadd osd.9 1 host=hots1 rack=rack1\nadd-bucket host2 host\nbegin\nadd osd.8 1 host=edge rack=rakc1\nadd osd.7 1 host=edge\ncommit\n";

const CREATED: &[u8] =
    b"# 1 a add osd.9 1.00000 host=hots1 rack=rack1 = done changed 1 made 1\n# 3 a begin ; add osd.8 1.00000 host=edge rack=rakc1 ; add osd.7 1.00000 host=edge ; commit = dones 2 changed 2 made 2\n";

const CREATED_HINTED: &[u8] =
    b"# 1 a add osd.9 1.00000 host=hots1 rack=rack1 = done changed 1 made 1\n  hots1 was created: did you mean host1?\n# 3 a begin ; add osd.8 1.00000 host=edge rack=rakc1 ; add osd.7 1.00000 host=edge ; commit = dones 2 changed 2 made 2\n  rakc1 was created: did you mean rack1?\n";

fn assert_hinted(
    rt: &(impl Abort + AllocGlobal),
    opening: CrushMap<Global>,
    scripts: &[Script],
    entries: &[Entry],
)
    requires few { length entries.now < 100 }
    requires operators { AreOf (length scripts.now) entries.now }
{
    let lines = made_text(rt.alloc(), scripts, entries).expect(rt, "no memory");
    let hints = created_text(rt.alloc(), opening, scripts, entries).expect(rt, "no memory");
    assert_eq!(rt; count_makings(entries), 2);
    assert_text(rt, lines.as_slice(), CREATED);
    assert_text(rt, hints.as_slice(), CREATED_HINTED);
}

fn assert_created(rt: &(impl Abort + AllocGlobal), job: &Job) {
    let scripts = job.scripts.as_slice();
    assert_eq!(rt; scripts.len(), 1);
    let mut map = job.map.try_copy().expect(rt, "no memory");
    let entries = entries_of(rt, &mut map, scripts, 0);
    assert!(rt; entries.len() < 100);
    let opening = job.map.try_copy().expect(rt, "no memory");
    assert_hinted(rt, opening, scripts, entries.as_slice());
    drop(entries);
    drop(map);
}

#[test]
fn a_created_bucket_is_told_with_the_item_that_is_meant(rt: HostRuntime) {
    let job = read_job(rt.alloc(), Hashing::plain(), CREATING).expect(&rt, "no job");
    assert_created(&rt, &job);
    drop(job);
}

const WEIGHED: &[u8] =
    b"device 0 osd.0\ntype 1 host\ntype 2 root\nhost h1 {\nid -2\nalg straw2\nitem osd.0 weight 554.62\n}\nroot default {\nid -1\nalg straw2\nitem h1 weight 554.6\n}\n%operator a\n";

const WEIGHTS: &[u8] = b"h1: 554.6 was written, the sum is 554.62000\n";

#[test]
fn written_weights_are_told(rt: HostRuntime) {
    let job = read_job(rt.alloc(), Hashing::plain(), WEIGHED).expect(&rt, "no job");
    let told = written_text(rt.alloc(), &job.map, WEIGHED).expect(&rt, "no memory");
    assert_text(&rt, told.as_slice(), WEIGHTS);
    drop(job);
}

const BATCHES: &[u8] =
    b"type 1 host\nhost h1 {\nid -1\nalg straw2\n}\n%operator a\n# one\nbegin\n\nadd-bucket h2 host\nadd osd.1000 1 rack=r1\ncommit\nrm h3\n%operator b\nrm h2\nbegin at 0\nrename-bucket h1 h5 # two\nrm h1\ncommit\n";

const BATCHES_OF_A: &[u8] =
    b"# 1 a begin ; add-bucket h2 host ; add osd.1000 1.00000 rack=r1 ; commit = refused at 1 NoSuchType 22\n  cmds:5: add osd.1000 1.00000 rack=r1: rack is not a type of the map\n# 2 a rm h3 = refused NoSuchItem 2\n  h3 doesn't exist: did you mean h1?\n";

const BATCHES_OF_NO_FILE: &[u8] =
    b"# 1 a begin ; add-bucket h2 host ; add osd.1000 1.00000 rack=r1 ; commit = refused at 1 NoSuchType 22\n  line 11: add osd.1000 1.00000 rack=r1: rack is not a type of the map\n# 2 a rm h3 = refused NoSuchItem 2\n  h3 doesn't exist: did you mean h1?\n";

const BATCHES_OF_B: &[u8] =
    b"# 1 b rm h2 = refused NoSuchItem 2\n  h2 doesn't exist: did you mean h1?\n# 2 b begin at 0 ; rename-bucket h1 h5 ; rm h1 ; commit = refused at 1 NoSuchItem 2\n  b.txt:4: rm h1: h1 doesn't exist: did you mean h5?\n";

#[derive(Drop)]
struct Whole<'a> {
    name: &'a [u8],
    before: usize,
}

impl Locates for Whole<'_> {
    ghost origin = { λ file _. record { name = file.name.now; before = file.before } };

    fn at(&self, line: usize) -> Origin<'_> {
        let _ = line;
        Origin {
            name: self.name,
            before: self.before,
        }
    }
}

fn assert_explained(
    rt: &(impl Abort + AllocGlobal),
    job: &Job,
    operator: usize,
    file: &Whole<'_>,
    told: &[u8],
) {
    let scripts = job.scripts.as_slice();
    let lines = job.lines.as_slice();
    assert!(rt; operator < scripts.len());
    let mut map = job.map.try_copy().expect(rt, "no memory");
    let entries = entries_of(rt, &mut map, scripts, operator);
    assert!(rt; entries.len() < 100);
    let opening = job.map.try_copy().expect(rt, "no memory");
    assert_told(rt, opening, file, lines, scripts, entries.as_slice(), told);
    drop(entries);
    drop(map);
}

fn assert_told(
    rt: &(impl Abort + AllocGlobal),
    opening: CrushMap<Global>,
    file: &Whole<'_>,
    edits: &[Vec<u32>],
    scripts: &[Script],
    entries: &[Entry],
    told: &[u8],
)
    requires few { length entries.now < 100 }
    requires operators { AreOf (length scripts.now) entries.now }
{
    let lines = JobLines {
        edits,
        origins: file,
    };
    let reasons = explained_job(rt.alloc(), lines, opening, scripts, entries).expect(
        rt,
        "no memory",
    );
    assert_text(rt, reasons.as_slice(), told);
}

#[test]
fn a_batch_tells_where_its_refused_edit_stands(rt: HostRuntime) {
    let job = read_job(rt.alloc(), Hashing::plain(), BATCHES).expect(&rt, "no job");
    let cmds = Whole {
        name: b"cmds",
        before: 6,
    };
    let none = Whole {
        name: b"",
        before: 0,
    };
    let second = Whole {
        name: b"b.txt",
        before: 14,
    };
    assert_explained(&rt, &job, 0, &cmds, BATCHES_OF_A);
    assert_explained(&rt, &job, 0, &none, BATCHES_OF_NO_FILE);
    assert_explained(&rt, &job, 1, &second, BATCHES_OF_B);
    drop(job);
}
