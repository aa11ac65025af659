//! Files and a sink in memory, which tell everything, and fail at the calls that they are told to.
ghost use Rattle.da_outside.specs.Memory.{bytes_named};
ghost use Rattle.da_outside.specs.Outside.{ReadsFrom};
ghost use Rattle.std.specs.Option.{option_copied};
ghost use Rattle.std.specs.Prelude.{◌≡◌, ◌≤◌, [], Some, length, OnErr, OnOk};

use crate::outside::{Files, Sink, Trouble};
use crate::script::Script;
use da_values::{Buf, List, NoMemory};
use std::alloc::Global;

/// A file in memory.
#[derive(Drop)]
pub struct MemFile {
    name: Buf,
    bytes: Buf,
}

/// Files in memory. A read of a name that is not there fails, and so do the calls of the script, counted from 1. No other
/// read fails, and none takes memory.
#[derive(Drop)]
pub struct MemFiles {
    files: List<MemFile>,
    script: Script,
}

/// A sink in memory. It takes at most `most` bytes a call, and fails at the calls of the script, counted from 1, and, where
/// `most` is 0, at each call that hands it a byte. No other write fails.
#[derive(Drop)]
pub struct MemSink {
    taken: Buf,
    most: usize,
    script: Script,
}

impl MemFiles {
    ghost use Rattle.da_outside.specs.Memory.{IsFileAdded, files_of, reads_of};

    /// No files.
    pub fn new(alloc: Global, script: List<u64>) -> MemFiles
        ensures none { files_of result ≡ [] }
        ensures script { reads_of result ≡ record { named = script; calls = 0; faults = 0 } }
    {
        MemFiles {
            files: List::new(alloc),
            script: Script::new(script),
        }
    }

    /// Adds a file. An earlier one of the same name stays the one that is read.
    pub fn add(&mut self, name: Buf, bytes: Buf) -> Result<(), NoMemory>
        ensures ok { OnOk result (IsFileAdded (files_of self.old) (files_of self.new) name bytes) }
        ensures err { OnErr result (files_of self.new ≡ files_of self.old) }
        ensures script { reads_of self.new ≡ reads_of self.old }
    {
        self.files.push(MemFile { name, bytes })
    }
}

impl Files for MemFiles {
    ghost use Rattle.da_outside.specs.Memory.{files_of, read_fails, reads_of};
    ghost use Rattle.da_outside.specs.Outside.{HasCause, ReadsTold};
    ghost use Rattle.da_outside.specs.Script.{script_after};
    ghost use Rattle.std.specs.Prelude.{ℕ, ◌<◌, List, IfOk, IsErrOf, IsOk, MatchBool};

    ghost told = { λ files name. bytes_named files.files name };

    ghost faults = { λ files _. files.script.faults };

    fn read(&mut self, name: &str, at: u64, buf: &mut [u8]) -> Result<usize, Trouble>
        ensures bound { IfOk result (λ n. n ≤ length buf.new) }
        ensures bytes { IfOk result (λ n. ReadsTold (bytes_named (files_of self.old) name.now) at n buf.new) }
        ensures same { (x : List ℕ) → bytes_named (files_of self.new) x ≡ bytes_named (files_of self.old) x }
        ensures cause { HasCause (reads_of self.old).faults (reads_of self.new).faults (IsErrOf result Trouble.Failed) }
        ensures later { (x : List ℕ) → (reads_of self.old).faults ≤ (reads_of self.new).faults }
        ensures rises { (x : List ℕ) → (reads_of self.old).faults < (reads_of self.new).faults → IsErrOf result Trouble.Failed }
        ensures fails { MatchBool (read_fails self.old name.now) (IsErrOf result Trouble.Failed) (IsOk result) }
        ensures script { reads_of self.new ≡ script_after (reads_of self.old) result }
        ensures files { files_of self.new ≡ files_of self.old }
    {
        if self.script.call() {
            return Err(self.script.fail());
        }
        match find(self.files.as_slice(), name.as_bytes()) {
            Some(bytes) => Ok(copy_from(bytes, at as usize, buf)),
            None => Err(self.script.fail()),
        }
    }
}

// The bytes of the first file of this name.
fn find<'f>(files: &'f [MemFile], name: &[u8]) -> Option<&'f [u8]>
    ensures { option_copied result ≡ bytes_named files.now name.now }
{
    for file in files {
        if file.name.as_slice() == name {
            return Some(file.bytes.as_slice());
        }
    }
    None
}

// Copies the bytes from a place on, as many as fit, and says how many.
fn copy_from(bytes: &[u8], at: usize, buf: &mut [u8]) -> usize
    ensures bound { result ≤ length buf.new }
    ensures read { ReadsFrom bytes.now at result buf.new }
{
    if at >= bytes.len() {
        return 0;
    }
    let rest = &bytes[at..];
    let count = rest.len().min(buf.len());
    buf[..count].copy_from_slice(&rest[..count]);
    count
}

impl MemSink {
    ghost use Rattle.da_outside.specs.Memory.{bytes_of, most_of, writes_of};

    /// A sink that has taken nothing.
    pub fn new(alloc: Global, most: usize, script: List<u64>) -> MemSink
        ensures none { bytes_of result ≡ [] }
        ensures most { most_of result ≡ most }
        ensures script { writes_of result ≡ record { named = script; calls = 0; faults = 0 } }
    {
        MemSink {
            taken: List::new(alloc),
            most,
            script: Script::new(script),
        }
    }

    /// The bytes that were taken.
    pub fn bytes(&self) -> &[u8]
        ensures { result.now ≡ bytes_of self.now }
    {
        self.taken.as_slice()
    }
}

impl Sink for MemSink {
    ghost use Rattle.da_outside.specs.Memory.{bytes_of, most_of, write_fails, writes_of};
    ghost use Rattle.da_outside.specs.Outside.{Appends, HasCause};
    ghost use Rattle.da_outside.specs.Script.{script_after};
    ghost use Rattle.std.specs.Prelude.{◌<◌, IfOk, IsErrOf, MatchBool, min, take};

    ghost taken = { λ sink. Some sink.taken };

    ghost faults = { λ sink. sink.script.faults };

    fn write(&mut self, bytes: &[u8]) -> Result<usize, Trouble>
        ensures bound { IfOk result (λ n. n ≤ length bytes.now) }
        ensures some { IfOk result (λ n. 0 < length bytes.now → 0 < n) }
        ensures took { IfOk result (λ n. Appends (Some (bytes_of self.old)) (Some (bytes_of self.new)) (take n bytes.now)) }
        ensures same { OnErr result (Some (bytes_of self.new) ≡ Some (bytes_of self.old)) }
        ensures cause { HasCause (writes_of self.old).faults (writes_of self.new).faults (IsErrOf result Trouble.Failed) }
        ensures count { IfOk result (λ n. n ≡ min (length bytes.now) (most_of self.old)) }
        ensures fails { MatchBool (write_fails self.old bytes.now) (IsErrOf result Trouble.Failed) (IsErrOf result Trouble.Failed → ⊥) }
        ensures script { writes_of self.new ≡ script_after (writes_of self.old) result }
        ensures most { most_of self.new ≡ most_of self.old }
    {
        if self.script.call() {
            return Err(self.script.fail());
        }
        if self.most == 0 && !bytes.is_empty() {
            return Err(self.script.fail());
        }
        let count = bytes.len().min(self.most);
        self.taken.append(&bytes[..count])?;
        Ok(count)
    }
}
