ghost use Rattle.std.specs.Prelude.{◌≡◌, ◌<◌, ◌≤◌, [], ℕ, Some, Ok, length, min, take, IfOk, IsOkUnless};
ghost use Rattle.rk_io.specs.Causes.{HasCause, HasWriteCause};
ghost use Rattle.rk_io.specs.Bytes.{Consumes, Appends, moved};

use crate::sink::{Sink, WriteError};
use crate::source::{Failed, Source};
use std::alloc::Global;
use std::marker::Model;

/// A source in memory that never fails.
#[derive(Debug, Drop)]
pub struct SureSource {
    bytes: Vec<u8>,
    at: usize,
}

impl Model for SureSource {
    ghost use Rattle.std.specs.Prelude.{◌≤◌, ℕ, List, drop, vec_len};

    ghost Value = { List ℕ };

    ghost view = { λ s. drop s.at s.bytes.items };

    ghost invariant = { λ s. s.at ≤ vec_len s.bytes };
}

impl SureSource {
    /// Makes a source of these bytes.
    pub fn new(bytes: Vec<u8>) -> SureSource
        ensures { result ≡ bytes.items }
    {
        SureSource { bytes, at: 0 }
    }
}

impl Source for SureSource {
    ghost left = { λ s. Some s };

    ghost faults = { λ _. 0 };

    /// Reads as many bytes as the buffer and what is left allow, and never fails.
    fn read(&mut self, buf: &mut [u8]) -> Result<u64, Failed>
        requires { 0 < length buf.old }
        ensures within { IfOk result (λ n. n ≤ length buf.new) }
        ensures bytes { Consumes (Some self.old) (Some self.new) (moved result buf.new) }
        ensures end { IfOk result (λ n. n ≡ 0 → self.old ≡ []) }
        ensures cause { HasCause 0 0 result }

        // What this source says beyond any other.
        ensures count { result ≡ Ok (min (length buf.old) (length self.old)) }
    {
        let count = copy_front(&self.bytes[self.at..], buf);
        self.at += count;
        Ok(count as u64)
    }
}

/// Copies as many bytes as both slices have room for into the front of a buffer, and says how many.
pub(crate) fn copy_front(bytes: &[u8], buf: &mut [u8]) -> usize
    ensures count { result ≡ min (length buf.old) (length bytes.now) }
    ensures copied { take result buf.new ≡ take result bytes.now }
{
    let count = buf.len().min(bytes.len());
    buf[..count].copy_from_slice(&bytes[..count]);
    count
}

/// A sink in memory that never fails, but for want of memory.
#[derive(Debug, Drop)]
pub struct SureSink {
    bytes: Vec<u8>,
}

impl Model for SureSink {
    ghost use Rattle.std.specs.Prelude.{ℕ, List};

    ghost Value = { List ℕ };

    ghost view = { λ s. s.bytes.items };
}

impl SureSink {
    /// Makes a sink that has taken nothing.
    pub fn new(alloc: Global) -> SureSink
        ensures { result ≡ [] }
    {
        SureSink {
            bytes: Vec::new(alloc),
        }
    }

    /// The bytes that it has taken, in order.
    pub fn written(&self) -> &[u8]
        ensures { result.now ≡ self.now }
    {
        self.bytes.as_slice()
    }
}

impl Sink for SureSink {
    ghost taken_so_far = { λ s. Some s };

    ghost faults = { λ _. 0 };

    /// Takes all the bytes, where there is memory for them.
    fn write(&mut self, bytes: &[u8]) -> Result<u64, WriteError>
        requires { 0 < length bytes.now }
        ensures some { IfOk result (λ n. (0 < n) × (n ≤ length bytes.now)) }
        ensures bytes { Appends (Some self.old) (Some self.new) (moved result bytes.now) }
        ensures cause { HasWriteCause 0 0 result }

        // What this sink says beyond any other.
        ensures count { IfOk result (λ n. n ≡ length bytes.now) }
        ensures only_memory { IsOkUnless result WriteError.Memory }
    {
        self.bytes.extend_from_slice(bytes)?;
        Ok(bytes.len() as u64)
    }
}
