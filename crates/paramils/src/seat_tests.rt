//! Seats over real children.
ghost use Rattle.std.specs.Prelude.{◌≡◌, true, false, IsTrue, not, is_ok};
ghost use Rattle.std.specs.List.{list_all};
ghost use Rattle.plain_text.specs.Words.{is_blank};

use crate::process_seat::ProcessSeat;
use crate::real_files::RealFiles;
use crate::tests::has_bytes;
use objective::{Memory, Micros};
use outside::{Fault, Files, Poll, Spawner};
use plain_text::{Items, Text};
use std::alloc::Global;
use std::fs::Permissions;
use std::os::unix::fs::PermissionsExt;
use std::process::Abort;
use std::rt::Clock;
use std::test::Fail;
use std::time::Duration;
use std::{fs, io, thread};
use wrapper_lines::{Key, Run, read_program, words_of};

/// The number of a process that has seats.
const ONE: u32 = 1;

/// The number of another one.
const OTHER: u32 = 2;

/// A run of the instance `one`.
fn example_run(alloc: Global) -> Result<Run, Memory> {
    let key = Key {
        instance: Text::of(alloc, "one")?,
        specifics: Text::of(alloc, "0")?,
        seed: 3,
        settings: Items::new(Vec::new(alloc))?,
    };
    Ok(Run {
        key,
        cutoff: Micros(10_000_000),
    })
}

/// Whether a text has blanks alone.
fn is_all_blank(text: &str) -> bool
    ensures { result ≡ list_all is_blank text.now }
{
    text.as_bytes().iter().all(|b| plain_text::is_blank(*b))
}

/// Starts the example run of a program in a folder.
fn starts_in<S: Spawner>(alloc: Global, seat: &mut S, algo: &str, dir: &str) -> Result<(), Fault>
    requires { IsTrue (S.told seat.old).idle }
    ensures { (S.told seat.new).idle ≡ not (is_ok result) }
{
    let Ok(run) = example_run(alloc) else {
        return Err(Fault::Memory);
    };
    if is_all_blank(algo) {
        return Err(Fault::Failed);
    }
    let Ok(program) = read_program(alloc, algo, dir, 9) else {
        return Err(Fault::Memory);
    };
    let Ok(words) = words_of(alloc, &program, &run) else {
        return Err(Fault::Memory);
    };
    seat.start(program.dir.as_str(), words.as_slice(), &run)
}

/// Starts the example run of a program in this folder.
fn starts<S: Spawner>(alloc: Global, seat: &mut S, algo: &str) -> Result<(), Fault>
    requires { IsTrue (S.told seat.old).idle }
    ensures { (S.told seat.new).idle ≡ not (is_ok result) }
{
    starts_in(alloc, seat, algo, ".")
}

/// Looks for at least a minute whether the child has ended.
fn has_ended<S: Spawner>(seat: &mut S) -> bool
    requires { (S.told seat.old).idle ≡ false }
    ensures held { result ≡ true → IsTrue (S.told seat.new).held }
    ensures idle { result ≡ true → IsTrue (S.told seat.new).idle }
{
    for _ in 0..60_000 {
        match seat.poll() {
            Ok(Poll::Pending) => seat.pause(),
            Ok(Poll::Ended) => return true,
            Err(_) => return false,
        }
    }
    false
}

/// Whether the child ends with this output.
fn ends_with<S: Spawner>(seat: &mut S, output: &[u8]) -> bool
    requires { (S.told seat.old).idle ≡ false }
    ensures { result ≡ true → IsTrue (S.told seat.new).idle }
{
    if !has_ended(seat) {
        return false;
    }
    seat.output() == output
}

/// Waits for at most a minute until a file has text.
fn awaited_text<R: std::rt::Files + Clock + AllocGlobal>(rt: &R, name: &str) -> io::Result<String> {
    for _ in 0..60_000 {
        let text = fs::read_to_string(rt, name)?;
        if !text.is_empty() {
            return Ok(text);
        }
        thread::sleep(rt, Duration::from_millis(1));
    }
    Ok(String::new(rt.alloc()))
}

/// Where the system shows the process whose number a file has.
fn process_place<R: std::rt::Files + Clock + AllocGlobal>(
    rt: &R,
    name: &str,
) -> io::Result<String> {
    let text = awaited_text(rt, name)?;
    let number = text.trim_end();
    Ok(format!(in rt.alloc(); "/proc/{number}")?)
}

/// Whether there is a file in this place. None where there is no place.
fn is_there<R: std::rt::Files>(rt: &R, place: &io::Result<String>) -> Option<bool> {
    match place {
        Ok(place) => fs::exists(rt, place.as_str()).ok(),
        Err(_) => None,
    }
}

/// A child that would sleep for ten minutes is killed, and then it is gone.
fn kills<S: Spawner, R: Abort + std::rt::Files + Clock + AllocGlobal>(rt: &R, seat: &mut S)
    requires { IsTrue (S.told seat.old).idle }
    ensures { IsTrue (S.told seat.new).idle }
{
    let start = starts(rt.alloc(), seat, "sh paramils-test-sleeps");
    assert!(rt; start.is_ok());
    assert_eq!(rt; seat.poll(), Ok(Poll::Pending));
    let place = process_place(rt, "paramils-seat-7.out");
    let before = is_there(rt, &place);
    seat.kill();
    assert_eq!(rt; (before, is_there(rt, &place)), (Some(true), Some(false)));
}

/// A child says its words.
fn says<S: Spawner>(rt: &impl Abort, alloc: Global, seat: &mut S)
    requires { IsTrue (S.told seat.old).idle }
    ensures { IsTrue (S.told seat.new).idle }
{
    let start = starts(alloc, seat, "sh paramils-test-says");
    assert!(rt; start.is_ok());
    let is_said = ends_with(seat, b"hi one 0 10.000000 9 3\n");
    assert!(rt; is_said);
}

/// Writes the programs that the children run, and a file under the first own name.
fn write_programs<R: std::rt::Files>(rt: &R) -> io::Result<()> {
    fs::write(rt, "paramils-test-says", "echo hi $*; echo no >&2")?;
    fs::write(rt, "paramils-test-sleeps", "echo $$; exec sleep 600")?;
    fs::write(
        rt,
        "paramils-test-long",
        "printf no; head -c 65492 /dev/zero | tr '\\0' x; \
         echo 'Result for ParamILS: SAT, 3.000000, 0, 0, 0'",
    )?;
    fs::write(rt, "paramils-seat-7.out.1.0", "old")
}

/// Whether these are as many bytes as are kept of an output, and a result line ends them.
fn is_last_part(output: &[u8]) -> bool {
    let line = b"Result for ParamILS: SAT, 3.000000, 0, 0, 0\n".as_slice();
    match output.strip_suffix(line) {
        Some(before) => before.len() == 65_492 && before.iter().all(|b| *b == b'x'),
        None => false,
    }
}

/// Whether the child ends, and the last part of its output is handed out.
fn ends_with_last_part<S: Spawner>(seat: &mut S) -> bool
    requires { (S.told seat.old).idle ≡ false }
    ensures { result ≡ true → IsTrue (S.told seat.new).idle }
{
    if !has_ended(seat) {
        return false;
    }
    is_last_part(seat.output())
}

/// A child writes more than is kept.
fn writes_much<S: Spawner>(rt: &impl Abort, alloc: Global, seat: &mut S)
    requires { IsTrue (S.told seat.old).idle }
    ensures { IsTrue (S.told seat.new).idle }
{
    let start = starts(alloc, seat, "sh paramils-test-long");
    assert!(rt; start.is_ok());
    let is_kept = ends_with_last_part(seat);
    assert!(rt; is_kept);
}

/// One child after another in the same seat.
fn runs_children<S: Spawner, R: Abort + std::rt::Files + Clock + AllocGlobal>(rt: &R, seat: &mut S)
    requires { IsTrue (S.told seat.old).idle }
{
    kills(rt, seat);
    writes_much(rt, rt.alloc(), seat);
    says(rt, rt.alloc(), seat);
}

#[test]
fn children_run_and_are_killed(rt: HostRuntime) -> Result<(), Fail> {
    write_programs(&rt)?;
    let mut files = RealFiles::new(&rt);
    let mut seat = ProcessSeat::new(&rt, ONE, 7)?;
    runs_children(&rt, &mut seat);
    let is_said = has_bytes(&mut files, "paramils-seat-7.err", b"no\n");
    let stays = has_bytes(&mut files, "paramils-seat-7.out.1.0", b"old");
    assert_eq!(rt; (is_said, stays, seat.faults()), (true, true, 0));
    Ok(())
}

/// Whether the children of two seats run side by side and each seat gets its own one's output.
fn are_apart<S: Spawner>(alloc: Global, one: &mut S, other: &mut S) -> bool
    requires one { IsTrue (S.told one.old).idle }
    requires other { IsTrue (S.told other.old).idle }
    ensures one { result ≡ true → IsTrue (S.told one.new).idle }
    ensures other { result ≡ true → IsTrue (S.told other.new).idle }
{
    if starts(alloc, one, "sh paramils-test-answers 1.500000").is_err() {
        return false;
    }
    if starts(alloc, other, "sh paramils-test-answers 2.500000").is_err() {
        return false;
    }
    if !ends_with(one, b"Result for ParamILS: SAT, 1.500000, 0, 0, 0\n") {
        return false;
    }
    ends_with(other, b"Result for ParamILS: SAT, 2.500000, 0, 0, 0\n")
}

/// Whether that is so fifty times.
fn are_always_apart<S: Spawner>(alloc: Global, one: &mut S, other: &mut S) -> bool
    requires one { IsTrue (S.told one.old).idle }
    requires other { IsTrue (S.told other.old).idle }
{
    for _ in 0..50 {
        if !are_apart(alloc, one, other) {
            return false;
        }
    }
    true
}

#[test]
fn seats_of_one_number_are_apart(rt: HostRuntime) -> Result<(), Fail> {
    fs::write(
        &rt,
        "paramils-test-answers",
        "echo \"Result for ParamILS: SAT, $1, 0, 0, 0\"",
    )?;
    let mut one = ProcessSeat::new(&rt, ONE, 8)?;
    let mut other = ProcessSeat::new(&rt, OTHER, 8)?;
    let are_apart = are_always_apart(rt.alloc(), &mut one, &mut other);
    assert_eq!(rt; (are_apart, one.faults(), other.faults()), (true, 0, 0));
    Ok(())
}

/// A program, the folder that it is to be started in, and what is told of why it can't be.
type FailedStart = (&'static str, &'static str, &'static str);

/// Whether a start fails, and the file with this name says why.
fn fails_so<S: Spawner, F: Files>(
    alloc: Global,
    seat: &mut S,
    files: &mut F,
    name: &str,
    start: &FailedStart,
) -> bool
    requires { IsTrue (S.told seat.old).idle }
    ensures { result ≡ true → IsTrue (S.told seat.new).idle }
{
    let (algo, dir, why) = *start;
    match starts_in(alloc, seat, algo, dir) {
        Err(Fault::Failed) => has_bytes(files, name, why.as_bytes()),
        _ => false,
    }
}

/// The program of the first of these starts that doesn't fail so.
fn first_other<S: Spawner, F: Files>(
    alloc: Global,
    seat: &mut S,
    files: &mut F,
    starts: &[FailedStart],
) -> Option<&'static str>
    requires { IsTrue (S.told seat.old).idle }
{
    for start in starts {
        if !fails_so(alloc, seat, files, "paramils-seat-9.err", start) {
            return Some(start.0);
        }
    }
    None
}

/// Writes a file that can't be run, one that has no interpreter, and one that has no form.
fn write_bad_programs<R: std::rt::Files>(rt: &R) -> io::Result<()> {
    fs::write(rt, "paramils-test-plain", "echo hi")?;
    fs::write(rt, "paramils-test-lost", "#!/paramils/no/such/sh\necho hi")?;
    fs::write(rt, "paramils-test-form", "echo hi")?;
    for name in ["paramils-test-lost", "paramils-test-form"] {
        fs::set_permissions(rt, name, Permissions::from_mode(0o755))?;
    }
    Ok(())
}

#[test]
fn failed_starts_say_why(rt: HostRuntime) -> Result<(), Fail> {
    let starts = [
        (
            "paramils-no-such-program x",
            ".",
            "paramils-no-such-program couldn't be started in .: No such file or directory (os error 2)\n",
        ),
        (
            "./paramils-no-such-program",
            ".",
            "./paramils-no-such-program couldn't be started in .: No such file or directory (os error 2)\n",
        ),
        (
            "./paramils-test-plain",
            ".",
            "./paramils-test-plain couldn't be started in .: Permission denied (os error 13)\n",
        ),
        (
            "./paramils-test-lost",
            ".",
            "./paramils-test-lost couldn't be started in .: No such file or directory (os error 2)\n",
        ),
        (
            "./paramils-test-form",
            ".",
            "./paramils-test-form couldn't be started in .: Exec format error (os error 8)\n",
        ),
        (
            "sh",
            "paramils-no-such-folder",
            "sh couldn't be started in paramils-no-such-folder: No such file or directory (os error 2)\n",
        ),
        (
            "sh",
            "paramils-test-plain",
            "sh couldn't be started in paramils-test-plain: Not a directory (os error 20)\n",
        ),
    ];
    write_bad_programs(&rt)?;
    let mut files = RealFiles::new(&rt);
    let mut seat = ProcessSeat::new(&rt, ONE, 9)?;
    let other = first_other(rt.alloc(), &mut seat, &mut files, starts.as_slice());
    assert_eq!(rt; (other, seat.faults()), (None, 7));
    Ok(())
}

/// Whether a start fails, and says why, where the file for the output can't be made; and
/// whether one fails where the file for the errors can't be made.
fn fail_without_files<S: Spawner, F: Files, R: std::rt::Files + AllocGlobal>(
    rt: &R,
    seat: &mut S,
    files: &mut F,
) -> (bool, bool)
    requires { IsTrue (S.told seat.old).idle }
{
    let why = "sh couldn't be started in .: Is a directory (os error 21)\n";
    if !fails_so(
        rt.alloc(),
        seat,
        files,
        "paramils-seat-10.err",
        &("sh", ".", why),
    ) {
        return (false, false);
    }
    let _ = fs::remove_file(rt, "paramils-seat-10.err");
    let _ = fs::create_dir(rt, "paramils-seat-10.err");
    let refusal = starts(rt.alloc(), seat, "sh");
    let _ = fs::remove_dir(rt, "paramils-seat-10.err");
    (true, refusal == Err(Fault::Failed))
}

#[test]
fn files_that_cant_be_made_are_faults(rt: HostRuntime) -> Result<(), Fail> {
    let _ = fs::create_dir(&rt, "paramils-seat-10.out");
    let mut files = RealFiles::new(&rt);
    let mut seat = ProcessSeat::new(&rt, ONE, 10)?;
    let failures = fail_without_files(&rt, &mut seat, &mut files);
    let is_left = fs::exists(&rt, "paramils-seat-10.err.1.0").ok();
    assert_eq!(rt;
        (failures, is_left, seat.faults()),
        ((true, true), Some(false), 2)
    );
    Ok(())
}
