//! A seat whose children are processes of the system.
ghost use Rattle.std.specs.Prelude.{◌≡◌, None, is_none, IfOk};

use crate::faults::fault_of;
use objective::Memory;
use outside::{Fail, Fault, LastRuns, Poll, Spawner};
use plain_text::Text;
use std::alloc::Global;
use std::fs::File;
use std::io::{Error, ErrorKind, Write};
use std::os::unix::fs::FileExt;
use std::process::{Child, Command, OpenProcess, Processes, Stdio};
use std::rt::{Clock, Files};
use std::time::Duration;
use std::{fs, io, thread};
use wrapper_lines::Run;

/// How many bytes of a child's output are kept: its last ones.
const ROOM: usize = 65_536;

/// How many names of its own are tried for a new file.
const MOST_NAMES: u32 = 1_000;

/// What the files of a seat are called, and the number of this process.
#[derive(Drop)]
struct FileNames {
    process: u32,
    output: String,
    errors: String,
}

/// The name of a file that the children of a seat write to.
fn file_name(alloc: Global, number: u32, ending: &str) -> Result<String, Memory> {
    Ok(format!(in alloc; "paramils-seat-{number}.{ending}")?)
}

/// What the files of the seat with this number are called.
fn names_of(alloc: Global, process: u32, number: u32) -> Result<FileNames, Memory> {
    let output = file_name(alloc, number, "out")?;
    let errors = file_name(alloc, number, "err")?;
    Ok(FileNames {
        process,
        output,
        errors,
    })
}

/// A child, and the files that it writes its output and its errors to.
#[derive(Drop)]
struct Running<P: OpenProcess> {
    child: Child<P>,
    output: File,
    errors: File,
}

/// A seat whose children are processes of the system. What they do isn't told.
#[derive(Drop)]
pub struct ProcessSeat<'a, R: Files<File = File> + Processes + Clock + AllocGlobal> {
    rt: &'a R,
    names: FileNames,
    child: Option<Running<R::Started>>,
    is_held: bool,
    output: Vec<u8>,
    runs: LastRuns,
    faults: u64,
}

impl<'a, R: Files<File = File> + Processes + Clock + AllocGlobal> ProcessSeat<'a, R> {
    /// The seat with this number, from 0, of the process with that number. Its children write
    /// to `paramils-seat-K.out` and `paramils-seat-K.err` in the folder that this process is
    /// in, K being the seat's number.
    pub fn new(rt: &'a R, process: u32, number: u32) -> Result<ProcessSeat<'a, R>, Memory>
        ensures idle { IfOk result (λ s. s.child ≡ None) }
        ensures faults { IfOk result (λ s. s.faults ≡ 0) }
    {
        let alloc = rt.alloc();
        Ok(ProcessSeat {
            rt,
            names: names_of(alloc, process, number)?,
            child: None,
            is_held: false,
            output: Vec::new(alloc),
            runs: LastRuns::new(),
            faults: 0,
        })
    }

    /// How many starts and looks have failed; it stands still at the greatest u64.
    pub fn faults(&self) -> u64
        ensures { result ≡ self.now.faults }
    {
        self.faults
    }
}

/// Gives a command its words after the first, its folder, and no input.
fn set_up(command: &mut Command, dir: &str, words: &[Text]) -> io::Result<()> {
    for word in words {
        command.arg(word.as_str())?;
    }
    command.current_dir(dir)?;
    command.stdin(Stdio::null());
    Ok(())
}

/// The command that these words are, in a folder, with no input. A program's name with a
/// slash is meant from that folder; one without is looked up in `PATH`.
fn command_of(alloc: Global, dir: &str, words: &[Text]) -> io::Result<Command> {
    let [program, others @ ..] = words else {
        return Err(Error::from(ErrorKind::InvalidInput));
    };
    let mut command = Command::new(alloc, program.as_str())?;
    set_up(&mut command, dir, others)?;
    Ok(command)
}

/// Gives a file another name. Where that fails the file is removed.
fn rename<R: Files>(rt: &R, own: &str, name: &str) -> io::Result<()> {
    let renaming = fs::rename(rt, own, name);
    if renaming.is_err() {
        let _ = fs::remove_file(rt, own);
    }
    renaming
}

/// A new, empty file, which is made under its own name and then has the other one.
fn renamed_file<R: Files<File = File>>(rt: &R, own: &str, name: &str) -> io::Result<File> {
    let file = File::create_new(rt, own)?;
    rename(rt, own, name)?;
    Ok(file)
}

/// Whether a file couldn't be made since there is one of its own name.
fn is_taken(file: &io::Result<File>) -> bool {
    matches!(file, Err(error) if error.kind() == ErrorKind::AlreadyExists)
}

/// A new, empty file with this name. It is made under a name of its own, in which the number
/// of this process stands, and takes this one over in one step. So whoever else does the same
/// gets a file too, and who has an older one open goes on with that.
fn new_file<R: Files<File = File> + AllocGlobal>(
    rt: &R,
    process: u32,
    name: &str,
) -> io::Result<File> {
    for attempt in 0..MOST_NAMES {
        let own = format!(in rt.alloc(); "{name}.{process}.{attempt}")?;
        let file = renamed_file(rt, own.as_str(), name);
        if !is_taken(&file) {
            return file;
        }
    }
    Err(Error::from(ErrorKind::AlreadyExists))
}

/// Gives a command these files for its output and its errors; both handles stay open here.
fn give_files(command: &mut Command, output: &File, errors: &File) -> io::Result<()> {
    command.stdout(output.try_clone()?);
    command.stderr(errors.try_clone()?);
    Ok(())
}

/// Starts a child without a shell, whose output and errors go to these files.
fn spawn<R: Processes + AllocGlobal>(
    rt: &R,
    dir: &str,
    words: &[Text],
    output: &File,
    errors: &File,
) -> io::Result<Child<R::Started>> {
    let mut command = command_of(rt.alloc(), dir, words)?;
    give_files(&mut command, output, errors)?;
    command.spawn(rt)
}

/// Starts a child with a new file for its output, and gives both.
fn launch<R: Files<File = File> + Processes + AllocGlobal>(
    rt: &R,
    names: &FileNames,
    dir: &str,
    words: &[Text],
    errors: &File,
) -> io::Result<(Child<R::Started>, File)> {
    let output = new_file(rt, names.process, names.output.as_str())?;
    let child = spawn(rt, dir, words, &output, errors)?;
    Ok((child, output))
}

/// Writes which program couldn't be started, in which folder, and what the system says of it.
/// What goes wrong with that is left aside.
fn write_why(mut errors: &File, dir: &str, words: &[Text], error: &Error) {
    let program = words.first().map_or("", |word| word.as_str());
    let _ = writeln!(errors, "{program} couldn't be started in {dir}: {error}");
}

/// Writes that the end of a run couldn't be seen, and what the system says of it. What goes
/// wrong with that is left aside.
fn write_why_unseen(mut errors: &File, error: &Error) {
    let _ = writeln!(errors, "the end of the run couldn't be seen: {error}");
}

/// Starts a child with new files for its output and its errors. Where it can't be started,
/// the file for its errors says why, if that one could be made.
fn launch_or_write_why<R: Files<File = File> + Processes + AllocGlobal>(
    rt: &R,
    names: &FileNames,
    dir: &str,
    words: &[Text],
) -> io::Result<Running<R::Started>> {
    let errors = new_file(rt, names.process, names.errors.as_str())?;
    match launch(rt, names, dir, words, &errors) {
        Ok((child, output)) => Ok(Running {
            child,
            output,
            errors,
        }),
        Err(error) => {
            write_why(&errors, dir, words, &error);
            Err(error)
        }
    }
}

/// Fills the room with the last bytes of a file. Takes no memory where the room for them was made.
fn read_last(file: &File, room: &mut Vec<u8>) -> io::Result<()> {
    let length = file.metadata()?.len();
    let skipped = length.saturating_sub(ROOM as u64);
    room.clear();
    room.resize((length - skipped) as usize, 0u8)?;
    file.read_exact_at(room.as_mut_slice(), skipped)
}

impl<P: OpenProcess> Running<P> {
    /// Whether the child has ended. A look that a signal interrupts finds nothing.
    fn has_ended(&mut self) -> io::Result<bool> {
        match self.child.try_wait() {
            Ok(status) => Ok(status.is_some()),
            Err(error) if error.kind() == ErrorKind::Interrupted => Ok(false),
            Err(error) => Err(error),
        }
    }

    /// Looks whether the child has ended, and then fills the room with the last bytes of its
    /// output.
    fn look(&mut self, room: &mut Vec<u8>) -> io::Result<Poll> {
        if !self.has_ended()? {
            return Ok(Poll::Pending);
        }
        read_last(&self.output, room)?;
        Ok(Poll::Ended)
    }

    /// Looks whether the child has ended. Where that fails, the file for its errors says why.
    fn look_or_write_why(&mut self, room: &mut Vec<u8>) -> io::Result<Poll> {
        let found = self.look(room);
        if let Err(error) = &found {
            write_why_unseen(&self.errors, error);
        }
        found
    }
}

impl<'a, R: Files<File = File> + Processes + Clock + AllocGlobal> ProcessSeat<'a, R> {
    /// Makes the room for a child's output and starts the child.
    fn start_child(&mut self, dir: &str, words: &[Text]) -> io::Result<Running<R::Started>>
        ensures child { self.new.child ≡ self.old.child }
        ensures is_held { self.new.is_held ≡ self.old.is_held }
        ensures runs { self.new.runs ≡ self.old.runs }
        ensures faults { self.new.faults ≡ self.old.faults }
    {
        self.output.clear();
        self.output.reserve(ROOM)?;
        launch_or_write_why(self.rt, &self.names, dir, words)
    }

    /// Looks whether the child has ended; then the last bytes of its output stand in the room.
    fn look(&mut self) -> io::Result<Poll>
        ensures child { is_none self.new.child ≡ is_none self.old.child }
        ensures is_held { self.new.is_held ≡ self.old.is_held }
        ensures runs { self.new.runs ≡ self.old.runs }
        ensures faults { self.new.faults ≡ self.old.faults }
    {
        let Some(running) = &mut self.child else {
            return Err(Error::from(ErrorKind::NotFound));
        };
        running.look_or_write_why(&mut self.output)
    }

    /// Kills the child, if there is one, and waits for its end; what goes wrong with either
    /// is left aside.
    fn end_child(&mut self)
        ensures child { self.new.child ≡ None }
        ensures is_held { self.new.is_held ≡ self.old.is_held }
        ensures runs { self.new.runs ≡ self.old.runs }
        ensures faults { self.new.faults ≡ self.old.faults }
    {
        if let Some(mut running) = self.child.take() {
            let _ = running.child.kill();
            let _ = running.child.wait();
        }
    }
}

impl<'a, R: Files<File = File> + Processes + Clock + AllocGlobal> Spawner for ProcessSeat<'a, R> {
    ghost told = { λ s. record {
      idle = is_none s.child;
      held = s.is_held;
      current = s.runs.current;
      failed_run = s.runs.failed_run;
      started = None;
      folders = None;
      faults = s.faults;
    } };

    ghost truth = { None };

    /// Starts a child without a shell, with no input and with new files for its output and
    /// its errors. Memory where the system or the allocator has none left; Failed at every
    /// other error. The file for the errors says why, where that one could be made.
    fn start(&mut self, dir: &str, words: &[Text], run: &Run) -> Result<(), Fault> {
        self.is_held = false;
        let Ok(copy) = run.copy() else {
            return Err(Fault::Memory);
        };
        self.runs.begin(copy, false);
        match self.start_child(dir, words).map_err(fault_of) {
            Ok(running) => {
                self.child = Some(running);
                Ok(())
            }
            Err(Fault::Memory) => Err(Fault::Memory),
            Err(Fault::Failed) => {
                self.runs.fail();
                self.faults = self.faults.saturating_add(1);
                Err(Fault::Failed)
            }
        }
    }

    /// Looks whether the child has ended, and then takes over the last 65,536 bytes of what
    /// it wrote. Fails where the look or the reading does, which the file for the errors says;
    /// a child that still runs is killed.
    fn poll(&mut self) -> Result<Poll, Fail> {
        let look = self.look().ok();
        self.is_held = matches!(look, Some(Poll::Ended));
        match look {
            Some(Poll::Pending) => Ok(Poll::Pending),
            Some(Poll::Ended) => {
                self.child = None;
                Ok(Poll::Ended)
            }
            None => {
                self.end_child();
                self.runs.fail();
                self.faults = self.faults.saturating_add(1);
                Err(Fail)
            }
        }
    }

    fn output(&self) -> &[u8] {
        self.output.as_slice()
    }

    /// Kills the child and waits for its end; what goes wrong with either is left aside.
    fn kill(&mut self) {
        self.end_child();
        self.is_held = false;
    }

    /// Sleeps for a millisecond.
    fn pause(&mut self) {
        thread::sleep(self.rt, Duration::from_millis(1));
    }
}
