ghost use Rattle.std.specs.Prelude.{MatchResult};
ghost use Rattle.bist_host.specs.Files.{HostState, OnlyReads, OnlyWrites, OnlySays, ReadGives, ReadRefused, WritesFile, WriteRefused, Says, SayRefused};

/// Why a call of a host gives up.
#[derive(Clone, Copy, Debug, PartialEq, Eq)]
pub enum HostFault {
    /// No file has the name. A host that doesn't tell its files raises its count of read faults with it.
    Absent,
    /// The file has more bytes than the limit. A host that doesn't tell its files raises its count of read faults with it.
    TooLarge,
    /// The file couldn't be read. The count of read faults rose in this call.
    ReadFailed,
    /// The file couldn't be written, or the bytes couldn't be said. The count of write faults rose in this call.
    WriteFailed,
    /// There was no memory. Nothing has changed.
    NoMemory,
}

/// Files by name, and the bytes that are said. A host tells both to the contracts, or doesn't tell them. It counts
/// its faults, of reads and of writes: a count never falls, and stands at `u64::MAX`.
pub trait Host {
    /// Its files, what was said, and its counts of faults, as it tells them.
    ghost state: { Self → HostState };

    /// The bytes of a file that has at most `limit` bytes. It changes nothing but the count of read faults.
    fn read_file(&mut self, name: &str, limit: usize) -> Result<Vec<u8>, HostFault>
        ensures kept { OnlyReads (state self.old) (state self.new) }
        ensures answer { MatchResult result
            (λ bytes. ReadGives (state self.old).files name.now limit bytes.items)
            (λ fault. ReadRefused (state self.old).files name.now limit fault (state self.old).read_faults (state self.new).read_faults) };

    /// Makes the file have these bytes. After `WriteFailed` it may be missing or hold anything; all others stay.
    fn write_file(&mut self, name: &str, bytes: &[u8]) -> Result<(), HostFault>
        ensures kept { OnlyWrites (state self.old) (state self.new) }
        ensures answer { MatchResult result
            (λ _. WritesFile (state self.old).files (state self.new).files name.now bytes.now)
            (λ fault. WriteRefused (state self.old).files (state self.new).files name.now fault (state self.old).write_faults (state self.new).write_faults) };

    /// Says these bytes. After `WriteFailed` some first part of them was said.
    fn say(&mut self, bytes: &[u8]) -> Result<(), HostFault>
        ensures kept { OnlySays (state self.old) (state self.new) }
        ensures answer { MatchResult result
            (λ _. Says (state self.old).said (state self.new).said bytes.now)
            (λ fault. SayRefused (state self.old).said (state self.new).said bytes.now fault (state self.old).write_faults (state self.new).write_faults) };
}
