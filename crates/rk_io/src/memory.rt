ghost use Rattle.std.specs.Prelude.{◌≡◌, ◌+◌, ◌<◌, ◌≤◌, ◌↔◌, [], ℕ, Some, length, min, Contains, IfOk, IsErr, IsErrOf};
ghost use Rattle.rk_io.specs.Causes.{HasCause, HasWriteCause, one_more};
ghost use Rattle.rk_io.specs.Bytes.{Consumes, Appends, moved};
ghost use Rattle.rk_io.specs.Memory.{after_read, after_write};

use crate::sink::{Sink, WriteError};
use crate::source::{Failed, Source};
use crate::sure::copy_front;
use std::alloc::Global;
use std::marker::Model;

/// A source in memory that gives its bytes in pieces, and fails at calls that its maker chose.
#[derive(Debug, Drop)]
pub struct MemSource {
    bytes: Vec<u8>,
    at: usize,
    piece: u64,
    fails: Vec<u64>,
    calls: u64,
    faults: u64,
}

impl Model for MemSource {
    ghost use Rattle.std.specs.Prelude.{◌<◌, ◌≤◌, drop, vec_len};
    ghost use Rattle.rk_io.specs.Memory.{Supply};

    ghost Value = { Supply };

    ghost view = { λ s. record {
      left = drop s.at s.bytes.items;
      piece = s.piece;
      fails = s.fails.items;
      calls = s.calls;
      faults = s.faults;
    } };

    ghost invariant = { λ s. (s.at ≤ vec_len s.bytes) × (0 < s.piece) };
}

impl MemSource {
    /// Makes a source of these bytes. A read moves at most `piece` of them, at least 1.
    /// The reads whose numbers, from 1, stand in `fails` fail.
    pub fn new(bytes: Vec<u8>, piece: u64, fails: Vec<u64>) -> MemSource
        requires { 0 < piece }
        ensures { result ≡ record {
          left = bytes.items;
          piece = piece;
          fails = fails.items;
          calls = 0;
          faults = 0;
        } }
    {
        MemSource {
            bytes,
            at: 0,
            piece,
            fails,
            calls: 0,
            faults: 0,
        }
    }
}

impl Source for MemSource {
    ghost left = { λ s. Some s.left };

    ghost faults = { λ s. s.faults };

    /// Reads as many bytes as the piece, the buffer and what is left allow.
    /// It fails exactly where the number of the call is listed.
    fn read(&mut self, buf: &mut [u8]) -> Result<u64, Failed>
        requires { 0 < length buf.old }
        ensures within { IfOk result (λ n. n ≤ length buf.new) }
        ensures bytes { Consumes (Some self.old.left) (Some self.new.left) (moved result buf.new) }
        ensures end { IfOk result (λ n. n ≡ 0 → self.old.left ≡ []) }
        ensures cause { HasCause self.old.faults self.new.faults result }

        // What this source says beyond any other.
        ensures fails { IsErr result ↔ Contains self.old.fails (one_more self.old.calls) }
        ensures count { IfOk result
            (λ n. n ≡ min (length buf.old) (min self.old.piece (length self.old.left))) }
        ensures after { self.new ≡ after_read self.old result }
    {
        self.calls = self.calls.saturating_add(1);
        if self.fails.contains(&self.calls) {
            self.faults = self.faults.saturating_add(1);
            return Err(Failed);
        }
        let left = self.bytes.len() - self.at;
        let most = (left as u64).min(self.piece) as usize;
        let count = copy_front(&self.bytes[self.at..self.at + most], buf);
        self.at += count;
        Ok(count as u64)
    }
}

/// A sink in memory that takes bytes in pieces, and fails at calls that its maker chose.
#[derive(Debug, Drop)]
pub struct MemSink {
    bytes: Vec<u8>,
    piece: u64,
    fails: Vec<u64>,
    calls: u64,
    faults: u64,
}

impl Model for MemSink {
    ghost use Rattle.std.specs.Prelude.{◌<◌};
    ghost use Rattle.rk_io.specs.Memory.{Store};

    ghost Value = { Store };

    ghost view = { λ s. record {
      taken = s.bytes.items;
      piece = s.piece;
      fails = s.fails.items;
      calls = s.calls;
      faults = s.faults;
    } };

    ghost invariant = { λ s. 0 < s.piece };
}

impl MemSink {
    /// Makes a sink that has taken nothing. A write moves at most `piece` bytes, at least 1.
    /// The writes whose numbers, from 1, stand in `fails` fail.
    pub fn new(alloc: Global, piece: u64, fails: Vec<u64>) -> MemSink
        requires { 0 < piece }
        ensures { result ≡ record {
          taken = [];
          piece = piece;
          fails = fails.items;
          calls = 0;
          faults = 0;
        } }
    {
        MemSink {
            bytes: Vec::new(alloc),
            piece,
            fails,
            calls: 0,
            faults: 0,
        }
    }

    /// The bytes that it has taken, in order.
    pub fn written(&self) -> &[u8]
        ensures { result.now ≡ self.now.taken }
    {
        self.bytes.as_slice()
    }
}

impl Sink for MemSink {
    ghost taken_so_far = { λ s. Some s.taken };

    ghost faults = { λ s. s.faults };

    /// Takes as many bytes as the piece and the slice allow, where there is memory for them.
    /// It answers `Failed` exactly where the number of the call is listed.
    fn write(&mut self, bytes: &[u8]) -> Result<u64, WriteError>
        requires { 0 < length bytes.now }
        ensures some { IfOk result (λ n. (0 < n) × (n ≤ length bytes.now)) }
        ensures bytes { Appends (Some self.old.taken) (Some self.new.taken)
            (moved result bytes.now) }
        ensures cause { HasWriteCause self.old.faults self.new.faults result }

        // What this sink says beyond any other.
        ensures fails { IsErrOf result WriteError.Failed
            ↔ Contains self.old.fails (one_more self.old.calls) }
        ensures count { IfOk result (λ n. n ≡ min self.old.piece (length bytes.now)) }
        ensures after { self.new ≡ after_write self.old bytes.now result }
    {
        self.calls = self.calls.saturating_add(1);
        if self.fails.contains(&self.calls) {
            self.faults = self.faults.saturating_add(1);
            return Err(WriteError::Failed);
        }
        let count = (bytes.len() as u64).min(self.piece) as usize;
        self.bytes.extend_from_slice(&bytes[..count])?;
        Ok(count as u64)
    }
}
