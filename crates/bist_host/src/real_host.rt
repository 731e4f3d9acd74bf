ghost use Rattle.std.specs.Prelude.{◌≡◌, ◌≢◌, ◌<◌, ◌≤◌, None, Err, IfOk, IfErr, IfSome, IsOk, IsTrue, MatchResult, length};
ghost use Rattle.std.specs.Io.KnownBytes.{Appends, Consumes, IsAtEnd};
ghost use Rattle.bist_host.specs.declared.host.HostFault.{HostFault};
ghost use Rattle.bist_host.specs.Files.{ReadGives, ReadRefused, WritesFile, WriteRefused, Says, SayRefused};
ghost use Rattle.bist_host.specs.inner.Files.{IsReadFault, IsWriteFault};

use crate::host::{Host, HostFault};
use std::alloc::{AllocError, Global};
use std::fs::{self, Metadata, OpenFile, OpenOptions, Permissions};
use std::io::{self, Error, ErrorKind, Read, Write};
use std::os::unix::fs::{MetadataExt, OpenOptionsExt, PermissionsExt};
use std::rt::{Clock, Files};

/// Real files and standard output, the trusted edge. It tells the contracts nothing of them, and counts each answer
/// other than `Ok` and `NoMemory`. It takes different names for different files.
///
/// A regular file is written beside its place, handed to the disk, and renamed to it where it is whole, so that a run that
/// is killed, or finds the disk full, and a power cut leave the old file. Of its permissions no more is kept than who may
/// read, write and run it, and of a group that isn't kept no more than others may. What is no regular file, as a device,
/// a pipe or a link, and a file that has other names too, is written where it is.
#[derive(Drop)]
pub struct RealHost<R: Files + Print + AllocGlobal + Clock + Drop> {
    rt: R,
    read_faults: u64,
    write_faults: u64,
}

impl<R: Files + Print + AllocGlobal + Clock + Drop> RealHost<R> {
    /// The files that the runtime reaches, and its standard output.
    pub fn new(rt: R) -> Self {
        RealHost {
            rt,
            read_faults: 0,
            write_faults: 0,
        }
    }
}

impl<R: Files + Print + AllocGlobal + Clock + Drop> Host for RealHost<R> {
    ghost state = { λ h. record { files = None; said = None; read_faults = h.read_faults; write_faults = h.write_faults } };

    fn read_file(&mut self, name: &str, limit: usize) -> Result<Vec<u8>, HostFault>
        ensures reads { self.old.read_faults ≤ self.new.read_faults }
        ensures writes { self.new.write_faults ≡ self.old.write_faults }
        ensures answer { MatchResult result
            (λ bytes. ReadGives None name.now limit bytes.items)
            (λ fault. ReadRefused None name.now limit fault self.old.read_faults self.new.read_faults) }
        ensures kept { IsOk result → self.new.read_faults ≡ self.old.read_faults }
    {
        match read_bytes(&self.rt, name, limit) {
            Ok(bytes) => Ok(bytes),
            Err(HostFault::NoMemory) => Err(HostFault::NoMemory),
            Err(fault) => {
                self.read_faults = self.read_faults.saturating_add(1);
                Err(fault)
            }
        }
    }

    fn write_file(&mut self, name: &str, bytes: &[u8]) -> Result<(), HostFault>
        ensures reads { self.new.read_faults ≡ self.old.read_faults }
        ensures writes { self.old.write_faults ≤ self.new.write_faults }
        ensures answer { MatchResult result
            (λ _. WritesFile None None name.now bytes.now)
            (λ fault. WriteRefused None None name.now fault self.old.write_faults self.new.write_faults) }
        ensures kept { IsOk result → self.new.write_faults ≡ self.old.write_faults }
    {
        match write_bytes(&self.rt, name, bytes) {
            Ok(()) => Ok(()),
            Err(HostFault::NoMemory) => Err(HostFault::NoMemory),
            Err(fault) => {
                self.write_faults = self.write_faults.saturating_add(1);
                Err(fault)
            }
        }
    }

    fn say(&mut self, bytes: &[u8]) -> Result<(), HostFault>
        ensures reads { self.new.read_faults ≡ self.old.read_faults }
        ensures writes { self.old.write_faults ≤ self.new.write_faults }
        ensures answer { MatchResult result
            (λ _. Says None None bytes.now)
            (λ fault. SayRefused None None bytes.now fault self.old.write_faults self.new.write_faults) }
        ensures kept { IsOk result → self.new.write_faults ≡ self.old.write_faults }
    {
        if write_whole(&mut io::writer(&self.rt), bytes) {
            return Ok(());
        }
        self.write_faults = self.write_faults.saturating_add(1);
        Err(HostFault::WriteFailed)
    }
}

/// Writes all bytes, piece by piece, or answers false. A write that takes nothing of a piece has failed.
fn write_whole<W: Write>(writer: &mut W, bytes: &[u8]) -> bool
    ensures { IsTrue result → Appends (W.contents writer.old) (W.contents writer.new) bytes.now }
{
    let mut rest = bytes;
    for _ in 0..u64::MAX {
        if rest.is_empty() {
            return writer.flush().is_ok();
        }
        match writer.write(rest) {
            Ok(0) => return false,
            Ok(count) => rest = &rest[count..],
            Err(error) => {
                if error.kind() != ErrorKind::Interrupted {
                    return false;
                }
            }
        }
    }
    false
}

/// Writes a file: a regular one, or one that isn't there yet, whole or not at all.
fn write_bytes<R: Files + AllocGlobal + Clock>(
    rt: &R,
    name: &str,
    bytes: &[u8],
) -> Result<(), HostFault>
    ensures { IfErr result IsWriteFault }
{
    match fs::symlink_metadata(rt, name) {
        Ok(there) => {
            if is_replaceable(&there) {
                return replace_file(rt, name, &there, bytes);
            }
            write_in_place(rt, name, bytes)
        }
        Err(error) if error.kind() == ErrorKind::NotFound => write_beside(rt, name, None, bytes),
        Err(error) => Err(write_fault(&error)),
    }
}

/// Whether a file may be renamed over: a link would be lost, and another name would keep the old bytes.
fn is_replaceable(there: &Metadata) -> bool {
    there.is_file() && there.nlink() == 1
}

/// Creates what the name leads to, or empties it, and writes it.
fn write_in_place<R: Files>(rt: &R, name: &str, bytes: &[u8]) -> Result<(), HostFault>
    ensures { IfErr result IsWriteFault }
{
    match fs::create(rt, name) {
        Ok(mut file) => {
            if write_whole(&mut file, bytes) && is_handed_on(&file) {
                return Ok(());
            }
            Err(HostFault::WriteFailed)
        }
        Err(error) => Err(write_fault(&error)),
    }
}

/// Hands what was written to the disk, where the file is one that a disk holds: a quota, or a disk behind a network, may
/// refuse it only then.
fn is_handed_on<F: OpenFile>(file: &F) -> bool {
    match file.metadata() {
        Ok(there) => !there.is_file() || file.sync_all().is_ok(),
        Err(_) => false,
    }
}

/// Replaces a regular file that may be written; to rename over it would not ask for that.
fn replace_file<R: Files + AllocGlobal + Clock>(
    rt: &R,
    name: &str,
    old: &Metadata,
    bytes: &[u8],
) -> Result<(), HostFault>
    ensures { IfErr result IsWriteFault }
{
    match OpenOptions::new().write(true).open(rt, name) {
        Ok(_) => write_beside(rt, name, Some(old), bytes),
        Err(error) => Err(write_fault(&error)),
    }
}

/// Writes the bytes to a new file beside the name, and renames it to the name. Where that fails the new file is removed.
fn write_beside<R: Files + AllocGlobal + Clock>(
    rt: &R,
    name: &str,
    old: Option<&Metadata>,
    bytes: &[u8],
) -> Result<(), HostFault>
    ensures { IfErr result IsWriteFault }
{
    let beside = name_beside(rt, name)?;
    match create_beside(rt, beside.as_str(), old.is_some()) {
        Ok(mut file) => {
            if fill_new(&mut file, old, bytes) && fs::rename(rt, beside.as_str(), name).is_ok() {
                return Ok(());
            }
            let _ = fs::remove_file(rt, beside.as_str());
            Err(HostFault::WriteFailed)
        }
        Err(error) => Err(write_fault(&error)),
    }
}

/// Creates a file that isn't there yet: where it will take over permissions, for its owner alone until it has them.
fn create_beside<R: Files>(rt: &R, beside: &str, is_narrow: bool) -> io::Result<R::File> {
    let mode = if is_narrow { 0o600 } else { 0o666 };
    OpenOptions::new()
        .write(true)
        .create_new(true)
        .mode(mode)
        .open(rt, beside)
}

/// Gives a new file the permissions of the one that it replaces, if it does, then its bytes, and hands them to the disk.
fn fill_new<F: Write + OpenFile>(file: &mut F, old: Option<&Metadata>, bytes: &[u8]) -> bool
    ensures { IsTrue result → Appends (F.contents file.old) (F.contents file.new) bytes.now }
{
    if let Some(old) = old {
        if !takes_permissions(file, old) {
            return false;
        }
    }
    write_whole(file, bytes) && file.sync_all().is_ok()
}

/// Gives a new file what it may keep of an old one's permissions, or answers false.
fn takes_permissions<F: OpenFile>(file: &F, old: &Metadata) -> bool {
    match file.metadata() {
        Ok(new) => {
            let mode = kept_mode(old.mode(), old.gid() == new.gid());
            file.set_permissions(Permissions::from_mode(mode)).is_ok()
        }
        Err(_) => false,
    }
}

/// Who may read, write and run a file; where the group is another, neither it nor others may what one of them may not.
#[tactic(auto, using(std::proofs::lemmas::Nat::and_le_r))]
fn kept_mode(mode: u32, is_same_group: bool) -> u32
    ensures only_these { result ≤ 0o777 }
{
    if is_same_group {
        return mode & 0o777;
    }
    let shared = (mode >> 3) & mode & 0o007;
    (mode & 0o700) + shared * 0o011
}

/// A name in the folder of this one, made from the time, so that it can hardly be a word of the call.
fn name_beside<R: AllocGlobal + Clock>(rt: &R, name: &str) -> Result<String, HostFault>
    ensures { IfErr result IsWriteFault }
{
    match rt.since_1970() {
        Ok(time) => match dotted(rt.alloc(), name, time.as_nanos()) {
            Ok(beside) => Ok(beside),
            Err(AllocError) => Err(HostFault::NoMemory),
        },
        Err(error) => Err(write_fault(&error)),
    }
}

/// The name of a hidden file with this number, in the folder of the name.
fn dotted(alloc: Global, name: &str, number: u128) -> Result<String, AllocError> {
    match name.rsplit_once('/') {
        Some((folder, _)) => format!(in alloc; "{folder}/.vidlakost-{number}"),
        None => format!(in alloc; ".vidlakost-{number}"),
    }
}

/// Why a file couldn't be created.
fn write_fault(error: &Error) -> HostFault
    ensures { IsWriteFault result }
{
    match error.kind() {
        ErrorKind::OutOfMemory => HostFault::NoMemory,
        _ => HostFault::WriteFailed,
    }
}

/// Why a file couldn't be opened or read.
fn read_fault(error: &Error) -> HostFault
    ensures fault { IsReadFault result }
    ensures other { result ≢ HostFault.TooLarge }
{
    match error.kind() {
        ErrorKind::NotFound => HostFault::Absent,
        ErrorKind::OutOfMemory => HostFault::NoMemory,
        _ => HostFault::ReadFailed,
    }
}

/// The bytes of a file that has at most `limit` bytes.
fn read_bytes<R: Files + AllocGlobal>(
    rt: &R,
    name: &str,
    limit: usize,
) -> Result<Vec<u8>, HostFault>
    ensures { IfErr result IsReadFault }
{
    match fs::open(rt, name) {
        Ok(mut file) => read_whole(rt.alloc(), &mut file, limit),
        Err(error) => Err(read_fault(&error)),
    }
}

/// All bytes to the end, piece by piece, where there are at most `limit`.
fn read_whole<F: Read>(alloc: Global, file: &mut F, limit: usize) -> Result<Vec<u8>, HostFault>
    ensures fault { IfErr result IsReadFault }
    ensures bytes { IfOk result (λ bytes. Consumes (F.remaining file.old) (F.remaining file.new) bytes.items) }
    ensures end { IfOk result (λ bytes. IsAtEnd (F.remaining file.new)) }
    ensures within { IfOk result (λ bytes. length bytes.items ≤ limit) }
    ensures too_large { result ≡ Err HostFault.TooLarge → IfSome (F.remaining file.old) (λ all. limit < length all) }
{
    let mut bytes = Vec::new(alloc);
    let mut piece = [0u8; 4096];
    for _ in 0..u64::MAX {
        let count = match file.read(&mut piece) {
            Ok(0) => return Ok(bytes),
            Ok(count) => count,
            Err(error) if error.kind() == ErrorKind::Interrupted => continue,
            Err(error) => return Err(read_fault(&error)),
        };
        if count > limit || bytes.len() > limit - count {
            return Err(HostFault::TooLarge);
        }
        if bytes.extend_from_slice(&piece[..count]).is_err() {
            return Err(HostFault::NoMemory);
        }
    }
    Err(HostFault::ReadFailed)
}
