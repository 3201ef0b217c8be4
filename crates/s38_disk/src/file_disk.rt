ghost use Rattle.std.specs.Prelude.{◌≡◌, ◌*◌, ◌+◌, ◌≤◌, IfOk, IfSome, IsErr, IsTrue, OnErr, OnOk, false, true, is_err, is_ok, length};
ghost use Rattle.s38_base.specs.Faults.{HasCause};
ghost use Rattle.s38_disk.specs.Disk.{Notes};
ghost use Rattle.s38_disk.specs.Files.{Counts, after_answer, file_view, next_moment, with_zeros};

use crate::block::{Block, Call};
use crate::disk::Disk;
use crate::fault_plan::counted;
use s38_base::Failed;
use s38_io::answer::{Answer, of_flush, of_read, of_write};
use std::fs::{File, OpenOptions, TryLockError};
use std::marker::Model;
use std::os::unix::fs::FileExt;

/// How many blocks a file has, however long it is.
const BLOCKS: u32 = 131_072;

/// How many bytes a block has.
const BLOCK_BYTES: u64 = 528;

/// A disk over a file. It tells nothing of what the file holds. After a sync that failed each later sync fails, since the
/// system may have dropped what it could not write. Contracts see the moment, the count of faults, and whether no sync has
/// failed.
#[derive(Drop)]
pub struct FileDisk {
    file: File,
    moment: u64,
    faults: u64,
    sound: bool,
}

impl Model for FileDisk {
    ghost use Rattle.s38_disk.specs.Files.{FileStore};

    ghost Value = { FileStore };

    ghost view = { λ d. record { moment = d.moment; faults = d.faults; sound = d.sound } };
}

impl FileDisk {
    /// A disk over the file of that path, which is made, and empty, where there is none. It fails where the file can't be
    /// opened for reading and writing.
    pub fn attach(rt: &HostRuntime, path: &str) -> Result<Self, Failed>
        ensures { IfOk result (λ d. d ≡ record { moment = 0; faults = 0; sound = true }) }
    {
        match OpenOptions::new()
            .read(true)
            .write(true)
            .create(true)
            .open(rt, path)
        {
            Ok(file) => Ok(FileDisk {
                file,
                moment: 0,
                faults: 0,
                sound: true,
            }),
            Err(_) => Err(Failed),
        }
    }

    /// Asks for the lock of the file, which nobody else who opens it gets as long as this disk is there. False where another
    /// has it. Where the file system has no locks, none is taken.
    pub fn try_lock(&self) -> bool {
        match self.file.try_lock() {
            Ok(()) | Err(TryLockError::Error(_)) => true,
            Err(TryLockError::WouldBlock) => false,
        }
    }

    /// Counts a write or a sync, unless the moment is at its last value.
    fn count(&mut self) -> Result<(), Failed>
        ensures ok { OnOk result (self.new ≡ next_moment self.old) }
        ensures err { OnErr result (self.new ≡ self.old) }
    {
        match self.moment.checked_add(1) {
            Some(moment) => {
                self.moment = moment;
                Ok(())
            }
            None => Err(Failed),
        }
    }

    /// Hands on what a call came to, and counts its fault.
    fn settle(&mut self, answer: Result<(), Failed>) -> Result<(), Failed>
        ensures same { result ≡ answer }
        ensures after { self.new ≡ after_answer self.old (is_err answer) }
        ensures cause { HasCause self.old.faults self.new.faults result }
    {
        if answer.is_err() {
            self.faults = counted(self.faults);
        }
        answer
    }
}

impl FileDisk {
    /// Counts a write, and makes it.
    fn count_and_write(&mut self, at: u32, from: &Block) -> Result<(), Failed>
        ensures { Counts self.old self.new (is_ok result) }
    {
        self.count()?;
        write_block(&self.file, at, from)
    }

    /// Counts a sync, and makes it, unless one has failed.
    fn count_and_sync(&mut self) -> Result<(), Failed>
        ensures counts { Counts self.old self.new (is_ok result) }
        ensures sound { OnOk result (IsTrue self.old.sound) }
    {
        self.count()?;
        if self.sound {
            sync_file(&self.file)
        } else {
            Err(Failed)
        }
    }
}

impl Disk for FileDisk {
    ghost view = { λ d. file_view d };

    fn blocks(&self) -> u32 {
        BLOCKS
    }

    fn moment(&self) -> u64 {
        self.moment
    }

    fn read(&mut self, at: u32, into: &mut Block) -> Result<(), Failed> {
        let answer = read_block(&self.file, at, into);
        self.settle(answer)
    }

    fn write(&mut self, at: u32, from: &Block) -> Result<(), Failed> {
        let answer = self.count_and_write(at, from);
        self.settle(answer)
    }

    fn sync(&mut self) -> Result<(), Failed>
        ensures notes { Notes (file_view self.old) (file_view self.new) (is_ok result) (Call.Synced (is_ok result)) }
        ensures cause { HasCause self.old.faults self.new.faults result }
        ensures count { OnOk result (self.new.faults ≡ self.old.faults) }

        // A sync that failed is never taken back by a later one.
        ensures lost { self.old.sound ≡ false → IsErr result }
        ensures sound { self.new.sound ≡ is_ok result }
    {
        let answer = self.count_and_sync();
        self.sound = answer.is_ok();
        self.settle(answer)
    }
}

/// Where a byte of a block is in the file.
fn place(at: u32, byte: usize) -> u64
    requires { byte ≤ 528 }
    ensures { result ≡ 528 * at + byte }
{
    BLOCK_BYTES * u64::from(at) + byte as u64
}

/// Reads a block in as many pieces as the system gives. Past the end of the file it holds zeros.
fn read_block(file: &File, at: u32, into: &mut Block) -> Result<(), Failed> {
    let mut done = 0;
    for _ in 0..u64::MAX {
        if done == into.bytes.len() {
            return Ok(());
        }
        match read_some(file, place(at, done), &mut into.bytes[done..]) {
            Ok(Some(0)) => {
                clear_from(&mut into.bytes, done);
                return Ok(());
            }
            Ok(Some(count)) => done += count,
            Ok(None) => {}
            Err(failed) => return Err(failed),
        }
    }
    Err(Failed)
}

/// One read, which says how many bytes came: 0 at the end of the file, and None where it is to be made again.
fn read_some(file: &File, place: u64, into: &mut [u8]) -> Result<Option<usize>, Failed>
    ensures { IfOk result (λ count. IfSome count (λ n. n ≤ length into.old)) }
{
    match of_read(file.read_at(into, place)) {
        Answer::Took(count) => Ok(Some(count)),
        Answer::Again => Ok(None),
        Answer::Fault => Err(Failed),
    }
}

/// Zeros from a place on.
fn clear_from(bytes: &mut [u8], at: usize)
    requires { at ≤ length bytes.old }
    ensures { bytes.new ≡ with_zeros at bytes.old }
{
    bytes[at..].fill(0);
}

/// Writes a block in as many pieces as the system takes.
fn write_block(file: &File, at: u32, from: &Block) -> Result<(), Failed> {
    let mut done = 0;
    for _ in 0..u64::MAX {
        if done == from.bytes.len() {
            return Ok(());
        }
        match write_some(file, place(at, done), &from.bytes[done..]) {
            Ok(count) => done += count,
            Err(failed) => return Err(failed),
        }
    }
    Err(Failed)
}

/// One write, which says how many bytes went: 0 only where it is to be made again.
fn write_some(file: &File, place: u64, from: &[u8]) -> Result<usize, Failed>
    ensures { IfOk result (λ n. n ≤ length from.now) }
{
    match of_write(file.write_at(from, place)) {
        Answer::Took(count) => Ok(count),
        Answer::Again => Ok(0),
        Answer::Fault => Err(Failed),
    }
}

/// One sync. The system itself makes one again that was interrupted.
fn sync_file(file: &File) -> Result<(), Failed> {
    match of_flush(file.sync_data()) {
        Answer::Took(_) => Ok(()),
        _ => Err(Failed),
    }
}
