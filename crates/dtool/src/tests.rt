//! What takes a sink, a feed or the words of a command line: cases that a table can't hold. Each test is one question to a
//! function that borrows what is large, since a test that fails lets go of all that it holds.

ghost use Rattle.std.specs.Prelude.{⊤, length};
ghost use Rattle.dt_run_words.specs.Asked.{IsAsked};

use dt_chain::{compile, read_all};
use dt_decompile::text_of;
use dt_names::{Fault, FaultKind, Feed, In, Out, Path, Sink, put_all};
use dt_read::Blob;
use dt_run::{Files, Prompt, SystemFiles, load_all, perform, report, run};
use dt_run_words::{Job, LineFault, line};
use hex::decode;
use std::alloc::Global;
use std::fs;
use std::io::{Error, ErrorKind, Read, Result as IoResult, Write};
use std::test::*;

const SOURCE: &[u8] = b"/dts-v1/; / { };";

const BLOB: &str =
    "d00dfeed0000004800000038000000480000002800000011000000100000000000000000000000100000000000000000000000000000000000000001000000000000000200000009";

const TEXT: &[u8] = b"/dts-v1/;\n/ {\n};\n";

const COUNTS: &[u8] = b"ok nodes 1 properties 0 reservations 0\n";

const BOARD: &[u8] =
    b"/dts-v1/; / { #address-cells = <1>; #size-cells = <1>; i: ic { interrupt-controller; #interrupt-cells = <1>; }; \
        d { reg = <16 2>, <32 1>; interrupt-parent = <&i>; interrupts = <5>; links = <&i 5>; }; };";

const REGIONS: &[u8] = b"/d 0 0x10 0x2 whole\n/d 1 0x20 0x1 whole\n";

const ROUTES: &[u8] = b"/d 0 /ic 0x5 hops 0\n";

const SENT: Job<'static> = Job::Dma {
    path: "/d",
    address: 16,
    size: 2,
};

const PROVIDED: Job<'static> = Job::Spec {
    path: "/d",
    property: "links",
    kind: "interrupt",
    index: 0,
};

/// What a writer does once that has no more room.
#[derive(Clone, Copy)]
enum End {
    Fails,
    TakesNothing,
}

/// Is interrupted at each other call, takes at most `step` bytes at the others, and comes to its end once, when it holds `room`.
#[derive(Drop)]
struct Narrow {
    held: Vec<u8>,
    step: usize,
    room: usize,
    end: End,
    was_interrupted: bool,
}

fn make_narrow(alloc: Global, step: usize, room: usize, end: End) -> Narrow {
    Narrow {
        held: Vec::new(alloc),
        step,
        room,
        end,
        was_interrupted: false,
    }
}

impl Write for Narrow {
    fn write(&mut self, bytes: &[u8]) -> IoResult<usize> {
        self.was_interrupted = !self.was_interrupted;
        if self.was_interrupted {
            return Err(Error::from(ErrorKind::Interrupted));
        }
        let room = self.room.saturating_sub(self.held.len());
        if room == 0 {
            self.room = usize::MAX;
            return match self.end {
                End::Fails => Err(Error::from(ErrorKind::BrokenPipe)),
                End::TakesNothing => Ok(0),
            };
        }
        let taken = bytes.len().min(self.step).min(room);
        self.held.extend_from_slice(&bytes[..taken])?;
        Ok(taken)
    }

    fn flush(&mut self) -> IoResult<()> {
        Ok(())
    }
}

/// Whether a call that had room for so many bytes of a text wrote these, and was refused for the sink where they aren't all.
fn is_cut(refused: Option<Fault>, room: usize, held: &[u8], whole: &[u8]) -> bool {
    let is_told = if room < whole.len() {
        refused == Some(Fault::of(FaultKind::WriteFault))
    } else {
        refused.is_none()
    };
    is_told && held == whole.get(..room).unwrap_or(whole)
}

/// How many bytes a writer takes at a call, and how it ends.
const WRITERS: [(usize, End); 4] = [
    (1, End::Fails),
    (3, End::TakesNothing),
    (100, End::Fails),
    (100, End::TakesNothing),
];

/// Whether a job is cut where the writer comes to its end, at each byte, and is whole where it doesn't.
fn is_cut_anywhere(alloc: Global, job: Job<'_>, hex: bool, input: &[u8], whole: &[u8]) -> bool {
    WRITERS.into_iter().all(|(step, end)| {
        (0..=whole.len()).all(|room| {
            let mut out = Out::new(make_narrow(alloc, step, room, end));
            let refused = perform(alloc, job, hex, &[input], &mut out).err();
            let is_first = refused.is_none_or(|(input, _)| input == 0);
            let fault = refused.map(|(_, fault)| fault);
            is_first && is_cut(fault, room, &out.into_inner().held, whole)
        })
    })
}

fn are_jobs_cut(alloc: Global, blob: &[u8]) -> bool {
    is_cut_anywhere(alloc, Job::Compile, false, SOURCE, blob)
        && is_cut_anywhere(
            alloc,
            Job::Build,
            true,
            SOURCE,
            b"d00dfeed000000480000003800000048000000280000001100000010000000000000000000000010\
                0000000000000000000000000000000000000001000000000000000200000009\n",
        )
        && is_cut_anywhere(alloc, Job::Apply, false, blob, blob)
        && is_cut_anywhere(alloc, Job::Print, true, blob, TEXT)
        && is_cut_anywhere(alloc, Job::Check, true, blob, COUNTS)
}

fn are_lines_cut(alloc: Global) -> bool {
    let Ok(blob) = compile(alloc, BOARD) else {
        return false;
    };
    is_cut_anywhere(alloc, Job::Regs, true, &blob, REGIONS)
        && is_cut_anywhere(alloc, Job::Irqs, true, &blob, ROUTES)
        && is_cut_anywhere(alloc, SENT, true, &blob, b"0x10 0x2 whole\n")
        && is_cut_anywhere(alloc, PROVIDED, true, &blob, b"/ic 0x5 hops 0\n")
}

#[test]
fn jobs_into_a_sink_that_fails(rt: HostRuntime) -> Result<(), Fail> {
    let blob = decode(rt.alloc(), BLOB)?;
    assert!(rt; are_jobs_cut(rt.alloc(), blob.as_slice()));
    assert!(rt; are_lines_cut(rt.alloc()));
    Ok(())
}

/// Whether a job refuses its inputs with this fault of this one, and writes nothing.
fn is_refused(alloc: Global, job: Job<'_>, inputs: &[&[u8]], input: usize, fault: Fault) -> bool
    requires { IsAsked job (length inputs.now) }
{
    let mut out = Out::new(make_narrow(alloc, 1, 100, End::Fails));
    let refused = perform(alloc, job, true, inputs, &mut out).err();
    refused == Some((input, fault)) && out.into_inner().held.is_empty()
}

fn are_refused(alloc: Global, blob: &mut [u8]) -> bool {
    if let Some(last) = blob.last_mut() {
        *last = 5;
    }
    let bad_tag = Fault::at(FaultKind::BadTag, 68);
    let bad_version_tag = Fault::at(FaultKind::BadVersionTag, 0);
    is_refused(
        alloc,
        Job::Check,
        &[&[]],
        0,
        Fault::of(FaultKind::ShortHeader),
    ) && is_refused(alloc, Job::Check, &[blob], 0, bad_tag)
        && is_refused(alloc, Job::Compile, &[b"/ { };"], 0, bad_version_tag)
        && is_refused(alloc, Job::Build, &[SOURCE, SOURCE], 1, bad_version_tag)
}

#[test]
fn inputs_that_are_refused(rt: HostRuntime) -> Result<(), Fail> {
    let mut blob = decode(rt.alloc(), BLOB)?;
    assert!(rt; are_refused(rt.alloc(), &mut blob));
    Ok(())
}

fn is_told(alloc: Global, input: usize, fault: Fault, line: &[u8]) -> bool {
    WRITERS.into_iter().all(|(step, end)| {
        (0..=line.len()).all(|room| {
            let mut err = Out::new(make_narrow(alloc, step, room, end));
            let refused = report(&mut err, input, fault).err();
            is_cut(refused, room, &err.into_inner().held, line)
        })
    })
}

#[test]
fn lines_of_faults(rt: HostRuntime) {
    let with_place = Fault::at(FaultKind::Syntax, 31);
    let without_place = Fault::of(FaultKind::ReadFault);
    assert!(rt;
        is_told(
            rt.alloc(),
            2,
            with_place,
            b"dtool: input 2: fault 12 Syntax at 31\n"
        ) && is_told(
            rt.alloc(),
            0,
            without_place,
            b"dtool: input 0: fault 91 ReadFault\n"
        )
    );
}

fn is_path_cut(alloc: Global, text: &[u8]) -> bool {
    let Ok(path) = Path::parse(alloc, text) else {
        return false;
    };
    WRITERS.into_iter().all(|(step, end)| {
        (0..=text.len()).all(|room| {
            let mut out = Out::new(make_narrow(alloc, step, room, end));
            let refused = path.write_to(&mut out).err();
            is_cut(refused, room, &out.into_inner().held, text)
        })
    })
}

fn is_text_cut(alloc: Global, blob: &[u8], text: &[u8]) -> bool {
    let Ok(blob) = Blob::check(blob) else {
        return false;
    };
    WRITERS.into_iter().all(|(step, end)| {
        (0..=text.len()).all(|room| {
            let mut out = Out::new(make_narrow(alloc, step, room, end));
            let refused = text_of(&blob, &mut out).err();
            is_cut(refused, room, &out.into_inner().held, text)
        })
    })
}

#[test]
fn paths_into_a_sink_that_fails(rt: HostRuntime) {
    assert!(rt; is_path_cut(rt.alloc(), b"/soc/uart@10") && is_path_cut(rt.alloc(), b"/"));
}

#[test]
fn texts_into_a_sink_that_fails(rt: HostRuntime) -> Result<(), Fail> {
    let blob = decode(rt.alloc(), BLOB)?;
    assert!(rt; is_text_cut(rt.alloc(), blob.as_slice(), TEXT));
    Ok(())
}

/// Whether a sink reports how much it took, and fails for good.
fn fails_for_good(alloc: Global) -> bool {
    let mut out = Out::new(make_narrow(alloc, 1, 7, End::Fails));
    let is_taken = put_all(&mut out, b"").is_ok()
        && put_all(&mut out, b"dtool").is_ok()
        && out.put(b"!?") == Some(1)
        && put_all(&mut out, b"abc") == Err(Fault::of(FaultKind::WriteFault));
    let is_over = out.put(b"g").is_none() && put_all(&mut out, b"g").is_err();
    is_taken && is_over && out.into_inner().held.as_slice() == b"dtool!a".as_slice()
}

fn takes_nothing(alloc: Global) -> bool {
    let mut out = Out::new(make_narrow(alloc, 0, 4, End::Fails));
    out.put(b"") == Some(0) && out.put(b"a").is_none() && out.put(b"").is_none()
}

#[test]
fn sinks(rt: HostRuntime) {
    assert!(rt; fails_for_good(rt.alloc()) && takes_nothing(rt.alloc()));
}

/// Is interrupted at each other call, gives at most `step` bytes at the others, and fails once, `until` bytes on.
#[derive(Drop)]
struct Dripping {
    rest: &'static [u8],
    step: usize,
    until: usize,
    was_interrupted: bool,
}

fn make_dripping(rest: &'static [u8], step: usize, until: usize) -> Dripping {
    Dripping {
        rest,
        step,
        until,
        was_interrupted: false,
    }
}

impl Read for Dripping {
    fn read(&mut self, buffer: &mut [u8]) -> IoResult<usize> {
        self.was_interrupted = !self.was_interrupted;
        if self.was_interrupted {
            return Err(Error::from(ErrorKind::Interrupted));
        }
        if self.until == 0 {
            self.until = usize::MAX;
            return Err(Error::from(ErrorKind::BrokenPipe));
        }
        let most = buffer.len().min(self.step).min(self.until);
        let given = self.rest.read(&mut buffer[..most])?;
        self.until = self.until.saturating_sub(given);
        Ok(given)
    }
}

fn reads_to_its_end() -> bool {
    let mut feed = In::new(make_dripping(b"abc", 2, 9));
    let mut buffer = [0u8; 4];
    let first = feed.get(&mut buffer) == Some(2) && &buffer[..2] == b"ab".as_slice();
    let second = feed.get(&mut buffer) == Some(1) && buffer[0] == b'c';
    let last = feed.get(&mut buffer) == Some(0);
    first && second && last && feed.into_inner().rest.is_empty()
}

fn stops_for_good() -> bool {
    let mut feed = In::new(make_dripping(b"abcdef", 9, 4));
    let mut buffer = [0u8; 9];
    let first = feed.get(&mut buffer) == Some(4);
    let is_over = feed.get(&mut buffer).is_none() && feed.get(&mut buffer).is_none();
    first && is_over && feed.into_inner().rest == b"ef".as_slice()
}

/// Whether an input of three bytes that fails behind so many is ReadFault, and else is whole.
fn is_read_or_told(alloc: Global, until: usize) -> bool {
    match read_all(alloc, &mut In::new(make_dripping(b"abc", 1, until))) {
        Ok(all) => until > 3 && all.as_slice() == b"abc".as_slice(),
        Err(fault) => until <= 3 && fault == Fault::of(FaultKind::ReadFault),
    }
}

#[test]
fn feeds(rt: HostRuntime) {
    assert!(rt; reads_to_its_end() && stops_for_good());
    assert!(rt; (0..6).all(|until| is_read_or_told(rt.alloc(), until)));
}

/// Gives so many bytes, at most `step` at a call.
#[derive(Drop)]
struct Zeros {
    left: usize,
    step: usize,
}

impl Read for Zeros {
    fn read(&mut self, buffer: &mut [u8]) -> IoResult<usize> {
        let given = buffer.len().min(self.step).min(self.left);
        self.left -= given;
        Ok(given)
    }
}

const ENDLESS: Zeros = Zeros {
    left: usize::MAX,
    step: usize::MAX,
};

/// How many bytes are read of an input of so many, or why none.
fn size_read(alloc: Global, left: usize, step: usize) -> Result<usize, Fault> {
    Ok(read_all(alloc, &mut In::new(Zeros { left, step }))?.len())
}

#[test]
fn the_longest_input(rt: HostRuntime) {
    let limit = Err(Fault::of(FaultKind::Limit));
    assert!(rt; size_read(rt.alloc(), 0, 5000) == Ok(0));
    assert!(rt; size_read(rt.alloc(), 16_777_216, 5000) == Ok(16_777_216));
    assert!(rt; size_read(rt.alloc(), 16_777_217, 5000) == limit);
    assert!(rt; size_read(rt.alloc(), usize::MAX, usize::MAX) == limit);
}

/// Whether the words, parted by blanks, ask for this.
fn asks_for(alloc: Global, text: &str, job: Job<'_>, hex: bool, files: &[&str]) -> bool {
    let Ok(words) = text.split(' ').collect::<Vec<&str>>(alloc) else {
        return false;
    };
    match line(alloc, words.as_slice()) {
        Ok(asked) => asked.job == job && asked.hex == hex && asked.files.as_slice() == files,
        Err(_) => false,
    }
}

const COMMANDS: [(&str, Job<'static>, bool, &[&str]); 16] = [
    ("dtool print a.dtb", Job::Print, false, &["a.dtb"]),
    ("dtool check a.dtb", Job::Check, false, &["a.dtb"]),
    ("dtool regs a.dtb", Job::Regs, false, &["a.dtb"]),
    ("dtool irqs a.dtb", Job::Irqs, false, &["a.dtb"]),
    (
        "dtool dma a.dtb /soc/d 18446744073709551615 +2",
        Job::Dma {
            path: "/soc/d",
            address: u64::MAX,
            size: 2,
        },
        false,
        &["a.dtb"],
    ),
    (
        "dtool spec a.dtb /d led-gpios gpio 3",
        Job::Spec {
            path: "/d",
            property: "led-gpios",
            kind: "gpio",
            index: 3,
        },
        false,
        &["a.dtb"],
    ),
    ("dtool compile stdin", Job::Compile, false, &["stdin"]),
    ("dtool compile --hex a.dts", Job::Compile, true, &["a.dts"]),
    ("dtool compile a.dts --hex", Job::Compile, true, &["a.dts"]),
    (
        "dtool compile --raw a.dts",
        Job::CompileRaw,
        false,
        &["a.dts"],
    ),
    ("dtool compile -- --hex", Job::Compile, false, &["--hex"]),
    ("dtool apply a.dtb", Job::Apply, false, &["a.dtb"]),
    (
        "dtool apply --hex a.dtb b.dtbo",
        Job::Apply,
        true,
        &["a.dtb", "b.dtbo"],
    ),
    (
        "dtool apply a.dtb b.dtbo a.dtb --hex",
        Job::Apply,
        true,
        &["a.dtb", "b.dtbo", "a.dtb"],
    ),
    ("dtool build a.dts", Job::Build, false, &["a.dts"]),
    (
        "dtool build stdin --hex stdin",
        Job::Build,
        true,
        &["stdin", "stdin"],
    ),
];

#[test]
fn words_that_are_a_command(rt: HostRuntime) {
    for (text, job, hex, files) in COMMANDS {
        assert!(rt; asks_for(rt.alloc(), text, job, hex, files), "{text}");
    }
}

const NO_COMMANDS: [&str; 33] = [
    "",
    "dtool",
    "dtool compile",
    "dtool compile a.dts b.dts",
    "dtool compile --hex --hex a.dts",
    "dtool compile --hexadecimal a.dts",
    "dtool --hex compile a.dts",
    "dtool decompile a.dtb",
    "dtool apply",
    "dtool apply --raw a.dtb",
    "dtool --raw apply a.dtb",
    "dtool build --hex",
    "dtool print",
    "dtool print --hex a.dtb",
    "dtool check",
    "dtool check --hex a.dtb",
    "dtool check a.dtb b.dtb",
    "dtool regs --hex a.dtb",
    "dtool irqs",
    "dtool irqs a.dtb b.dtb",
    "dtool dma a.dtb /soc/d 0",
    "dtool dma a.dtb /soc/d 0x10 1",
    "dtool dma a.dtb /soc/d 18446744073709551616 1",
    "dtool dma --hex a.dtb /soc/d 0 1",
    "dtool spec a.dtb /d led-gpios gpio",
    "dtool spec a.dtb /d led-gpios gpio -1",
    "dtool spec a.dtb /d led-gpios gpio 0 1",
    "dtool --help",
    "dtool help",
    "dtool compile --help",
    "dtool --version",
    "dtool -V",
    "dtool compile --version",
];

fn is_no_command(alloc: Global, text: &str) -> bool {
    match text.split(' ').collect::<Vec<&str>>(alloc) {
        Ok(words) => matches!(line(alloc, words.as_slice()), Err(LineFault::Words(_))),
        Err(_) => false,
    }
}

#[test]
fn words_that_are_none(rt: HostRuntime) {
    for text in NO_COMMANDS {
        assert!(rt; is_no_command(rt.alloc(), text), "{text}");
    }
}

/// Whether a file of the system is read, and one that isn't there is reported.
fn is_read_until_removed(rt: &HostRuntime) -> Result<bool, Fail> {
    fs::write(rt, "input-of-a-test.dts", SOURCE)?;
    let mut files = SystemFiles::new(rt);
    let names = ["input-of-a-test.dts", "no-input-of-a-test.dts"];
    let no_file = Fault::of(FaultKind::ReadFault);
    let is_read = load_all(rt.alloc(), &mut files, &names[..1]).is_ok_and(
        |texts| texts[0].as_slice() == SOURCE,
    );
    let is_told = load_all(rt.alloc(), &mut files, &names).err() == Some((1, no_file));
    fs::remove_file(rt, "input-of-a-test.dts")?;
    let is_gone = load_all(rt.alloc(), &mut files, &names).err() == Some((0, no_file));
    Ok(is_read && is_told && is_gone)
}

#[test]
fn files(rt: HostRuntime) -> Result<(), Fail> {
    let is_right = is_read_until_removed(&rt)?;
    assert!(rt; is_right);
    Ok(())
}

/// Files in a test: each but one holds the source, and standard input holds it too; they give a byte at a time, and fail once, `until` bytes on. Or
/// they have no end.
#[derive(Drop)]
struct Shelf {
    alloc: Global,
    asked: usize,
    until: Option<usize>,
}

impl Files for Shelf {
    ghost loads = { λ _ _ _ _. ⊤ };

    fn load(&mut self, name: &str) -> Result<Vec<u8>, Fault> {
        self.asked = self.asked.saturating_add(1);
        if name == "none" {
            return Err(Fault::of(FaultKind::ReadFault));
        }
        match self.until {
            Some(until) => read_all(self.alloc, &mut In::new(make_dripping(SOURCE, 1, until))),
            None => read_all(self.alloc, &mut In::new(ENDLESS)),
        }
    }
}

/// The status of a run on these words. Its callers own what it borrows, so that its ways out are proved with nothing to let go of.
fn run_words(
    alloc: Global,
    words: &[&str],
    files: &mut Shelf,
    made: &mut Out<Narrow>,
    told: &mut Out<Narrow>,
) -> u8 {
    run(alloc, line(alloc, words), files, made, told)
}

/// What a run ends with: its status, how many files it asked for, and what it wrote.
#[derive(Drop)]
struct Ending<'a> {
    status: u8,
    asked: usize,
    out: &'a [u8],
    err: &'a [u8],
}

/// Whether a run on these words, parted by blanks, and on files that fail so many bytes on or have no end, ends so.
fn ends(alloc: Global, text: &str, until: Option<usize>, ending: &Ending<'_>) -> bool {
    let Ok(words) = text.split(' ').collect::<Vec<&str>>(alloc) else {
        return false;
    };
    let mut files = Shelf {
        alloc,
        asked: 0,
        until,
    };
    let mut told = Out::new(make_narrow(alloc, 7, 1000, End::Fails));
    let mut made = Out::new(make_narrow(alloc, 9, 1000, End::Fails));
    run_words(alloc, &words, &mut files, &mut made, &mut told) == ending.status
        && files.asked == ending.asked
        && made.into_inner().held.as_slice() == ending.out
        && told.into_inner().held.as_slice() == ending.err
}

/// Whether a run on whole files is done.
fn is_done(alloc: Global, text: &str, out: &[u8]) -> bool {
    let ending = Ending {
        status: 0,
        asked: 1,
        out,
        err: b"",
    };
    ends(alloc, text, Some(usize::MAX), &ending)
}

/// Whether a run on files that fail so many bytes on or have no end reports this fault, asks for so many files, and writes nothing.
fn is_faulty(alloc: Global, text: &str, until: Option<usize>, asked: usize, err: &[u8]) -> bool {
    let ending = Ending {
        status: 1,
        asked,
        out: b"",
        err,
    };
    ends(alloc, text, until, &ending)
}

#[test]
fn runs(rt: HostRuntime) -> Result<(), Fail> {
    let alloc = rt.alloc();
    let blob = decode(alloc, BLOB)?;
    let hex =
        b"d00dfeed0000004800000038000000480000002800000011000000100000000000000000000000100000000000000000000000000000000000000001000000000000000200000009\n";
    assert!(rt; is_done(alloc, "dtool compile a.dts", blob.as_slice()));
    assert!(rt; is_done(alloc, "dtool build --hex stdin", hex));
    Ok(())
}

const BAD_VERSION: &[u8] = b"dtool: input 1: fault 10 BadVersionTag at 0\n";

const NO_SECOND: &[u8] = b"dtool: input 1: fault 91 ReadFault\n";

const NO_FIRST: &[u8] = b"dtool: input 0: fault 91 ReadFault\n";

const NO_BLOB: &[u8] = b"dtool: input 0: fault 40 ShortHeader\n";

const TOO_LONG: &[u8] = b"dtool: input 0: fault 2 Limit\n";

const RUNS: [&str; 9] = [
    "dtool compile a.dts",
    "dtool apply a.dts",
    "dtool build a.dts",
    "dtool print a.dts",
    "dtool check a.dts",
    "dtool regs a.dts",
    "dtool irqs a.dts",
    "dtool dma a.dts / 0 1",
    "dtool spec a.dts / p k 0",
];

/// Whether each command reports a file that fails, whichever byte it fails at, and one that has no end.
fn are_bad_files_told(alloc: Global) -> bool {
    RUNS.into_iter().all(|words| {
        is_faulty(alloc, words, None, 1, TOO_LONG)
            && (0..=SOURCE.len()).all(|until| is_faulty(alloc, words, Some(until), 1, NO_FIRST))
    })
}

#[test]
fn runs_on_bad_files(rt: HostRuntime) {
    assert!(rt; are_bad_files_told(rt.alloc()));
}

#[test]
fn runs_that_are_refused(rt: HostRuntime) {
    let alloc = rt.alloc();
    let whole = Some(usize::MAX);
    assert!(rt; is_faulty(alloc, "dtool build stdin stdin", whole, 1, BAD_VERSION));
    assert!(rt; is_faulty(alloc, "dtool build a.dts none stdin", whole, 2, NO_SECOND));
    assert!(rt; is_faulty(alloc, "dtool check a.dts", whole, 1, NO_BLOB));
}

/// The status of a run on these words, where standard error takes so many bytes.
fn status_of(alloc: Global, text: &str, room: usize) -> Option<u8> {
    let words = text.split(' ').collect::<Vec<&str>>(alloc).ok()?;
    let mut files = Shelf {
        alloc,
        asked: 0,
        until: Some(usize::MAX),
    };
    let mut made = Out::new(make_narrow(alloc, 9, 9, End::Fails));
    let mut told = Out::new(make_narrow(alloc, 9, room, End::Fails));
    Some(run_words(alloc, &words, &mut files, &mut made, &mut told))
}

#[test]
fn statuses(rt: HostRuntime) {
    for room in [0, 20, 2000] {
        assert!(rt; status_of(rt.alloc(), "dtool compile a.dts", room) == Some(1));
        assert!(rt; status_of(rt.alloc(), "dtool compile none", room) == Some(1));
        assert!(rt; status_of(rt.alloc(), "dtool --help", room) == Some(2));
        assert!(rt; status_of(rt.alloc(), "dtool --version", room) == Some(2));
        assert!(rt; status_of(rt.alloc(), "dtool compile", room) == Some(2));
    }
}

/// Takes all bytes, and reports only when it is flushed that they didn't arrive.
#[derive(Drop)]
struct Full;

impl Write for Full {
    fn write(&mut self, bytes: &[u8]) -> IoResult<usize> {
        Ok(bytes.len())
    }

    fn flush(&mut self) -> IoResult<()> {
        Err(Error::from(ErrorKind::StorageFull))
    }
}

#[test]
fn a_full_disk(rt: HostRuntime) {
    let fault = Fault::of(FaultKind::WriteFault);
    let refused = perform(
        rt.alloc(),
        Job::Compile,
        false,
        &[SOURCE],
        &mut Out::new(Prompt::new(Full)),
    );
    assert!(rt; refused.err() == Some((0, fault)));
}
