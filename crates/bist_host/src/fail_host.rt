use crate::host::{Host, HostFault};
use crate::mem_host::MemHost;
use std::marker::Model;

/// A host in memory whose listed calls fail. All calls are numbered from 1, up to `u64::MAX`, where the numbering
/// stands. A listed call that would else succeed answers `ReadFailed` or `WriteFailed` and raises the count of its
/// kind: the write leaves the first half of the bytes, rounded down, and the say appends nothing.
#[derive(Drop)]
pub struct FailHost {
    inner: MemHost,
    failing: Vec<u64>,
    calls: u64,
    read_faults: u64,
    write_faults: u64,
}

impl Model for FailHost {
    ghost use Rattle.bist_host.specs.FailHost.{FailContent};

    ghost Value = { FailContent };

    ghost view = { λ h. record {
      inner = h.inner;
      failing = h.failing.items;
      calls = h.calls;
      read_faults = h.read_faults;
      write_faults = h.write_faults;
    } };
}

impl FailHost {
    ghost use Rattle.std.specs.Prelude.{◌≡◌, ◌≤◌, ◌↔◌, IsTrue};
    ghost use Rattle.bist_host.specs.FailHost.{counted, IsNextListed, ListedRead, ListedWrite};

    /// No call has been made, and no count has risen.
    pub fn new(inner: MemHost, failing: Vec<u64>) -> Self
        ensures { result ≡ record { inner = inner; failing = failing.items; calls = 0; read_faults = 0; write_faults = 0 } }
    {
        FailHost {
            inner,
            failing,
            calls: 0,
            read_faults: 0,
            write_faults: 0,
        }
    }

    /// The host in memory behind it.
    pub fn inner(&self) -> &MemHost
        ensures { result.now ≡ self.now.inner }
    {
        &self.inner
    }

    /// Gives the call its number, and answers whether that is listed.
    fn is_listed(&mut self) -> bool
        ensures listed { IsTrue result ↔ IsNextListed self.old }
        ensures counted { self.new ≡ counted self.old }
    {
        self.calls = self.calls.saturating_add(1);
        self.failing.contains(&self.calls)
    }

    /// Fails a read that would else succeed.
    fn read_nothing(&mut self, name: &str, limit: usize) -> HostFault
        ensures reads { self.old.read_faults ≤ self.new.read_faults }
        ensures answer { ListedRead self.old self.new name.now limit result }
    {
        match self.inner.read_file(name, limit) {
            Ok(_) => {
                self.read_faults = self.read_faults.saturating_add(1);
                HostFault::ReadFailed
            }
            Err(fault) => fault,
        }
    }

    /// Fails a write that would else succeed, half way.
    fn write_half(&mut self, name: &str, bytes: &[u8]) -> HostFault
        ensures writes { self.old.write_faults ≤ self.new.write_faults }
        ensures answer { ListedWrite self.old self.new name.now bytes.now result }
    {
        match self.inner.write_file(name, &bytes[..bytes.len() / 2]) {
            Ok(()) => {
                self.write_faults = self.write_faults.saturating_add(1);
                HostFault::WriteFailed
            }
            Err(fault) => fault,
        }
    }
}

impl Host for FailHost {
    ghost use Rattle.std.specs.Prelude.{Some, MatchResult, IsErrAnd};
    ghost use Rattle.bist_host.specs.Files.{OnlyReads, OnlyWrites, OnlySays, ReadGives, ReadRefused, WritesFile, WriteRefused, Says, SayRefused};
    ghost use Rattle.bist_host.specs.MemHost.{files_of};
    ghost use Rattle.bist_host.specs.FailHost.{state_of, counted, IsNextListed, ListedRead, ListedWrite, ListedSay, OtherRead, OtherCall, ReadsWhole, WritesWhole, SaysWhole};

    ghost state = { state_of };

    fn read_file(&mut self, name: &str, limit: usize) -> Result<Vec<u8>, HostFault>
        ensures kept { OnlyReads (state_of self.old) (state_of self.new) }
        ensures answer { MatchResult result
            (λ bytes. ReadGives (Some (files_of self.old.inner)) name.now limit bytes.items)
            (λ fault. ReadRefused (Some (files_of self.old.inner)) name.now limit fault self.old.read_faults self.new.read_faults) }

        // What the list of failing calls adds.
        ensures listed { IsNextListed self.old → IsErrAnd result (ListedRead (counted self.old) self.new name.now limit) }
        ensures other { ¬ IsNextListed self.old → MatchResult result
            (λ bytes. ReadsWhole (counted self.old) self.new name.now limit bytes.items)
            (OtherRead (counted self.old) self.new name.now limit) }
    {
        if self.is_listed() {
            return Err(self.read_nothing(name, limit));
        }
        self.inner.read_file(name, limit)
    }

    fn write_file(&mut self, name: &str, bytes: &[u8]) -> Result<(), HostFault>
        ensures kept { OnlyWrites (state_of self.old) (state_of self.new) }
        ensures answer { MatchResult result
            (λ _. WritesFile (Some (files_of self.old.inner)) (Some (files_of self.new.inner)) name.now bytes.now)
            (λ fault. WriteRefused (Some (files_of self.old.inner)) (Some (files_of self.new.inner)) name.now fault self.old.write_faults self.new.write_faults) }

        // What the list of failing calls adds.
        ensures listed { IsNextListed self.old → IsErrAnd result (ListedWrite (counted self.old) self.new name.now bytes.now) }
        ensures other { ¬ IsNextListed self.old → MatchResult result
            (λ _. WritesWhole (counted self.old) self.new name.now bytes.now)
            (OtherCall (counted self.old) self.new) }
    {
        if self.is_listed() {
            return Err(self.write_half(name, bytes));
        }
        self.inner.write_file(name, bytes)
    }

    fn say(&mut self, bytes: &[u8]) -> Result<(), HostFault>
        ensures kept { OnlySays (state_of self.old) (state_of self.new) }
        ensures answer { MatchResult result
            (λ _. Says (Some self.old.inner.said) (Some self.new.inner.said) bytes.now)
            (λ fault. SayRefused (Some self.old.inner.said) (Some self.new.inner.said) bytes.now fault self.old.write_faults self.new.write_faults) }

        // What the list of failing calls adds.
        ensures listed { IsNextListed self.old → IsErrAnd result (ListedSay (counted self.old) self.new) }
        ensures other { ¬ IsNextListed self.old → MatchResult result
            (λ _. SaysWhole (counted self.old) self.new bytes.now)
            (OtherCall (counted self.old) self.new) }
    {
        if self.is_listed() {
            self.write_faults = self.write_faults.saturating_add(1);
            return Err(HostFault::WriteFailed);
        }
        self.inner.say(bytes)
    }
}
