//! The adapters over real files and streams, the words of a call, and what the program says of
//! itself.
use crate::arguments::words_of_call;
use crate::real_files::RealFiles;
use crate::real_sink::{RealSink, Standard};
use crate::texts::{HELP, VERSION, say};
use objective::Memory;
use outside::{Fault, Files, Sink};
use std::alloc::Global;
use std::env::{Env, FillError};
use std::fs::OpenOptions;
use std::io::{Error, ErrorKind, Write};
use std::test::Fail;
use std::{fs, io};

/// Whether a file has these bytes.
pub(crate) fn has_bytes<F: Files>(files: &mut F, name: &str, bytes: &[u8]) -> bool {
    files.read(name).ok().as_deref() == Some(bytes)
}

/// Whether the reading of a file fails.
fn cant_be_read<F: Files>(files: &mut F, name: &str) -> bool {
    files.read(name).err() == Some(Fault::Failed)
}

#[test]
fn files_are_read_and_missing_ones_counted(rt: HostRuntime) -> Result<(), Fail> {
    fs::write(&rt, "paramils-test-file", "two\nlines")?;
    let mut files = RealFiles::new(&rt);
    let is_read = has_bytes(&mut files, "paramils-test-file", b"two\nlines");
    let before = files.faults();
    let is_missing = cant_be_read(&mut files, "paramils-no-such-file");
    assert_eq!(rt;
        (is_read, before, is_missing, files.faults()),
        (true, 0, true, 1)
    );
    Ok(())
}

#[test]
fn standard_error_is_written(rt: HostRuntime) {
    let mut log = RealSink::new(Standard::Errors(rt.stderr()));
    let (some, none) = (log.write(b"log\n"), log.write(b""));
    assert_eq!(rt; (some, none, log.faults()), (Ok(4), Ok(0), 0));
}

#[test]
fn a_full_disk_is_a_fault(rt: HostRuntime) -> Result<(), Fail> {
    let full = OpenOptions::new().write(true).open(&rt, "/dev/full")?;
    let mut full = RealSink::new(full);
    let refusal = full.write(b"abc");
    assert_eq!(rt; (refusal, full.faults()), (Err(Fault::Failed), 1));
    Ok(())
}

/// A stream whose first calls a signal interrupts.
#[derive(Drop)]
struct Disturbed {
    interruptions: u32,
}

impl Disturbed {
    /// Fails where a signal interrupts this call.
    fn call(&mut self) -> io::Result<()> {
        if self.interruptions == 0 {
            return Ok(());
        }
        self.interruptions -= 1;
        Err(Error::from(ErrorKind::Interrupted))
    }
}

impl Write for Disturbed {
    fn write(&mut self, piece: &[u8]) -> io::Result<usize> {
        self.call()?;
        Ok(piece.len())
    }

    fn flush(&mut self) -> io::Result<()> {
        self.call()
    }
}

#[test]
fn interrupted_writes_are_taken_up_again(rt: HostRuntime) {
    let mut disturbed = RealSink::new(Disturbed { interruptions: 3 });
    let mut lost = RealSink::new(Disturbed {
        interruptions: 5_000,
    });
    let (written, refused) = (disturbed.write(b"abc"), lost.write(b"abc"));
    assert_eq!(rt; (written, disturbed.faults()), (Ok(3), 0));
    assert_eq!(rt; (refused, lost.faults()), (Err(Fault::Failed), 1));
}

#[test]
fn help_fits_a_screen_and_is_written_whole(rt: HostRuntime) -> Result<(), Fail> {
    let full = OpenOptions::new().write(true).open(&rt, "/dev/full")?;
    let statuses = (
        say(&mut RealSink::new(Standard::Output(rt.stdout())), VERSION),
        say(&mut RealSink::new(full), HELP),
    );
    assert_eq!(rt; statuses, (0, 5));
    let is_short = HELP.lines().count() <= 24 && HELP.lines().all(|line| line.len() <= 80);
    assert!(rt; is_short);
    Ok(())
}

/// The program's name and words, as a system hands them over.
#[derive(Drop)]
struct Handed<'a> {
    words: &'a [&'a [u8]],
}

impl Env for Handed<'_> {
    fn arg(&self, i: usize, buf: &mut [u8]) -> Result<usize, FillError> {
        let Some(word) = self.words.get(i) else {
            return Err(FillError::NotPresent);
        };
        if buf.len() < word.len() {
            return Err(FillError::TooLong);
        }
        buf[..word.len()].copy_from_slice(word);
        Ok(word.len())
    }

    fn var(&self, _name: &str, _buf: &mut [u8]) -> Result<usize, FillError> {
        Err(FillError::NotPresent)
    }

    fn var_at(&self, _i: usize, _buf: &mut [u8]) -> Result<usize, FillError> {
        Err(FillError::NotPresent)
    }
}

/// The words that are taken of these, each followed by a bar.
fn words_taken(alloc: Global, words: &[&[u8]]) -> Result<String, Memory> {
    let mut text = String::new(alloc);
    for word in words_of_call(&Handed { words }, alloc)? {
        text.push_str(word.as_str())?;
        text.push_str("|")?;
    }
    Ok(text)
}

/// Whether these are the words that are taken.
fn takes(alloc: Global, words: &[&[u8]], taken: &str) -> bool {
    match words_taken(alloc, words) {
        Ok(text) => text.as_str() == taken,
        Err(_) => false,
    }
}

#[test]
fn a_pair_that_isnt_text_is_taken_as_an_empty_word(rt: HostRuntime) {
    let name = b"paramils".as_slice();
    let (key, file) = (b"-scenariofile".as_slice(), b"s".as_slice());
    let other = b"-N\xff".as_slice();
    let alloc = rt.alloc();
    let are_taken = (
        takes(alloc, &[name], ""),
        takes(alloc, &[name, key, file], "-scenariofile|s|"),
        takes(alloc, &[name, key, other, file], "|"),
        takes(alloc, &[name, key, file, other, file], "-scenariofile|s||"),
    );
    assert_eq!(rt; are_taken, (true, true, true, true));
}
