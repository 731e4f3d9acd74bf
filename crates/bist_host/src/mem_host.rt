ghost use Rattle.std.specs.Prelude.{◌≡◌, Some, None, OnOk, OnErr, IfErr, MatchOption, MatchResult, []};
ghost use Rattle.bist_host.specs.Files.{WritesFile};
ghost use Rattle.bist_host.specs.MemHost.{file_of};
ghost use Rattle.bist_host.specs.inner.MemHost.{IsPlaceOf};
ghost use Rattle.bist_host.specs.MemFile.{named_files};

use crate::host::{Host, HostFault};
use bist_bits::NoMemory;
use std::alloc::Global;
use std::marker::Model;

/// One file in memory.
#[derive(Drop)]
struct MemFile {
    name: String,
    bytes: Vec<u8>,
}

/// A host in memory. It tells its files and what was said, and has no fault of its own: a read answers `Absent`,
/// `TooLarge` or `NoMemory`, a write and a say only `NoMemory`.
#[derive(Drop)]
pub struct MemHost {
    files: Vec<MemFile>,
    said: Vec<u8>,
    alloc: Global,
}

impl Model for MemHost {
    ghost use Rattle.bist_host.specs.MemHost.{MemContent};

    ghost Value = { MemContent };

    ghost use Rattle.bist_host.specs.MemFile.{named_files};

    ghost view = { λ h. record { listed = named_files h.files.items; said = h.said.items } };
}

impl MemHost {
    ghost use Rattle.std.specs.Prelude.{◌≡◌, Some, None, OnOk, OnErr, MatchOption, []};
    ghost use Rattle.bist_host.specs.Files.{WritesFile};
    ghost use Rattle.bist_host.specs.MemHost.{files_of};

    /// No file, and nothing said.
    pub fn new(alloc: Global) -> Self
        ensures { result ≡ record { listed = []; said = [] } }
    {
        MemHost {
            files: Vec::new(alloc),
            said: Vec::new(alloc),
            alloc,
        }
    }

    /// Makes the file have these bytes, whether it was there before or not. Other files stay.
    pub fn put(&mut self, name: &str, bytes: &[u8]) -> Result<(), NoMemory>
        ensures said { self.new.said ≡ self.old.said }
        ensures ok { OnOk result (WritesFile (Some (files_of self.old)) (Some (files_of self.new)) name.now bytes.now) }
        ensures err { OnErr result (self.new ≡ self.old) }
    {
        put_file(self.alloc, &mut self.files, name, bytes)
    }

    /// The bytes of a file, `None` exactly where no file has the name.
    pub fn get(&self, name: &str) -> Option<&[u8]>
        ensures { MatchOption result (files_of self.now name.now ≡ None) (λ bytes. files_of self.now name.now ≡ Some bytes.now) }
    {
        find_file(self.files.as_slice(), name)
    }

    /// All bytes that were said.
    pub fn said(&self) -> &[u8]
        ensures { result.now ≡ self.now.said }
    {
        self.said.as_slice()
    }

    pub(crate) fn alloc(&self) -> Global {
        self.alloc
    }
}

impl Host for MemHost {
    ghost use Rattle.std.specs.Prelude.{◌≡◌, ◌++◌, Some, OnErr, IfOk, IfErr, MatchResult};
    ghost use Rattle.bist_host.specs.Files.{ReadGives, ReadRefused, WritesFile, IsNoMemory};
    ghost use Rattle.bist_host.specs.MemHost.{files_of};

    ghost state = { λ h. record { files = Some (files_of h); said = Some h.said; read_faults = 0; write_faults = 0 } };

    fn read_file(&mut self, name: &str, limit: usize) -> Result<Vec<u8>, HostFault>
        ensures stays { self.new ≡ self.old }
        ensures answer { MatchResult result
            (λ bytes. ReadGives (Some (files_of self.old)) name.now limit bytes.items)
            (λ fault. ReadRefused (Some (files_of self.old)) name.now limit fault 0 0) }
    {
        match find_file(self.files.as_slice(), name) {
            None => Err(HostFault::Absent),
            Some(bytes) => {
                if bytes.len() > limit {
                    return Err(HostFault::TooLarge);
                }
                match Vec::from_slice(self.alloc, bytes) {
                    Ok(copy) => Ok(copy),
                    Err(_) => Err(HostFault::NoMemory),
                }
            }
        }
    }

    fn write_file(&mut self, name: &str, bytes: &[u8]) -> Result<(), HostFault>
        ensures said { self.new.said ≡ self.old.said }
        ensures ok { IfOk result (λ _. WritesFile (Some (files_of self.old)) (Some (files_of self.new)) name.now bytes.now) }
        ensures err { OnErr result (self.new ≡ self.old) }
        ensures fault { IfErr result IsNoMemory }
    {
        match put_file(self.alloc, &mut self.files, name, bytes) {
            Ok(()) => Ok(()),
            Err(NoMemory) => Err(HostFault::NoMemory),
        }
    }

    fn say(&mut self, bytes: &[u8]) -> Result<(), HostFault>
        ensures ok { IfOk result (λ _. self.new ≡ record self.old { said = self.old.said ++ bytes.now }) }
        ensures err { OnErr result (self.new ≡ self.old) }
        ensures fault { IfErr result IsNoMemory }
    {
        match self.said.extend_from_slice(bytes) {
            Ok(()) => Ok(()),
            Err(_) => Err(HostFault::NoMemory),
        }
    }
}

/// The bytes of the first file of that name.
#[tactic(auto, using(crate::proofs::FilesKept::file_there))]
fn find_file<'a>(files: &'a [MemFile], name: &str) -> Option<&'a [u8]>
    ensures { MatchOption result (file_of (named_files files.now) name.now ≡ None)
        (λ bytes. file_of (named_files files.now) name.now ≡ Some bytes.now) }
{
    match place_of(files, name) {
        Some(i) => Some(files[i].bytes.as_slice()),
        None => None,
    }
}

/// Where the first file of that name stands.
fn place_of(files: &[MemFile], name: &str) -> Option<usize>
    ensures { MatchOption result (file_of (named_files files.now) name.now ≡ None) (λ i. IsPlaceOf (named_files files.now) name.now i) }
{
    for (i, file) in files.iter().enumerate() {
        if file.name.as_str() == name {
            return Some(i);
        }
    }
    None
}

/// Makes the file have these bytes, in its place or behind all others.
#[tactic(auto, using(crate::proofs::FilesKept::file_replaced))]
fn put_file(
    alloc: Global,
    files: &mut Vec<MemFile>,
    name: &str,
    bytes: &[u8],
) -> Result<(), NoMemory>
    ensures ok { OnOk result (WritesFile (Some (file_of (named_files files.old.items)))
        (Some (file_of (named_files files.new.items))) name.now bytes.now) }
    ensures err { OnErr result (files.new.items ≡ files.old.items) }
{
    let Ok(copy) = Vec::from_slice(alloc, bytes) else {
        return Err(NoMemory);
    };
    let Some(i) = place_of(files.as_slice(), name) else {
        return add_file(alloc, files, name, copy);
    };
    files[i].bytes = copy;
    Ok(())
}

/// Adds a file whose name no other has.
#[tactic(auto, using(crate::proofs::FilesKept::file_added))]
fn add_file(
    alloc: Global,
    files: &mut Vec<MemFile>,
    name: &str,
    bytes: Vec<u8>,
) -> Result<(), NoMemory>
    requires { file_of (named_files files.old.items) name.now ≡ None }
    ensures ok { OnOk result (WritesFile (Some (file_of (named_files files.old.items)))
        (Some (file_of (named_files files.new.items))) name.now bytes.items) }
    ensures err { OnErr result (files.new.items ≡ files.old.items) }
{
    let Ok(name) = String::from_str(alloc, name) else {
        return Err(NoMemory);
    };
    if files.push(MemFile { name, bytes }).is_err() {
        return Err(NoMemory);
    }
    Ok(())
}
