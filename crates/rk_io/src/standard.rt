ghost use Rattle.std.specs.Prelude.{◌≡◌, ◌<◌, ◌≤◌, ℕ, None, length, IfOk};
ghost use Rattle.std.specs.Io.KnownBytes.{ReadConsumes, WriteAppends};
ghost use Rattle.rk_io.specs.Causes.{HasCause, HasWriteCause, faults_after};

use crate::sink::{Sink, WriteError};
use crate::source::{Failed, Source};
use std::io::{Read, Write};
use std::marker::Model;

/// A source over a reader of the standard library. It tells no bytes, and counts each error
/// of the reader.
#[derive(Drop)]
pub struct StdSource<R: Read + Drop> {
    inner: R,
    faults: u64,
}

impl<R: Read + Drop> Model for StdSource<R> {
    ghost use Rattle.rk_io.specs.Standard.{Counted};

    ghost Value = { Counted R };

    ghost view = { λ s. record { inner = s.inner; faults = s.faults } };
}

impl<R: Read + Drop> StdSource<R> {
    /// Makes a source over a reader, with no faults so far.
    pub fn new(inner: R) -> StdSource<R>
        ensures { result ≡ record { inner = inner; faults = 0 } }
    {
        StdSource { inner, faults: 0 }
    }
}

impl<R: Read + Drop> Source for StdSource<R> {
    ghost left = { λ _. None };

    ghost faults = { λ s. s.faults };

    /// Reads once from the reader. Each of its errors is one fault.
    fn read(&mut self, buf: &mut [u8]) -> Result<u64, Failed>
        requires { 0 < length buf.old }
        ensures within { IfOk result (λ n. n ≤ length buf.new) }
        ensures cause { HasCause self.old.faults self.new.faults result }

        // What this source says beyond any other.
        ensures counted { self.new.faults ≡ faults_after result self.old.faults }
        ensures inner { ReadConsumes (R.remaining self.old.inner) (R.remaining self.new.inner)
            result buf.new }
    {
        match self.inner.read(buf) {
            Ok(count) => Ok(count as u64),
            Err(_) => {
                self.faults = self.faults.saturating_add(1);
                Err(Failed)
            }
        }
    }
}

/// A sink over a writer of the standard library. It tells no bytes, and counts each error
/// of the writer and each write that takes nothing.
#[derive(Drop)]
pub struct StdSink<W: Write + Drop> {
    inner: W,
    faults: u64,
}

impl<W: Write + Drop> Model for StdSink<W> {
    ghost use Rattle.rk_io.specs.Standard.{Counted};

    ghost Value = { Counted W };

    ghost view = { λ s. record { inner = s.inner; faults = s.faults } };
}

impl<W: Write + Drop> StdSink<W> {
    /// Makes a sink over a writer, with no faults so far.
    pub fn new(inner: W) -> StdSink<W>
        ensures { result ≡ record { inner = inner; faults = 0 } }
    {
        StdSink { inner, faults: 0 }
    }
}

impl<W: Write + Drop> Sink for StdSink<W> {
    ghost taken_so_far = { λ _. None };

    ghost faults = { λ s. s.faults };

    /// Writes once to the writer. Each of its errors, and a write that takes nothing, is one fault.
    fn write(&mut self, bytes: &[u8]) -> Result<u64, WriteError>
        requires { 0 < length bytes.now }
        ensures some { IfOk result (λ n. (0 < n) × (n ≤ length bytes.now)) }
        ensures cause { HasWriteCause self.old.faults self.new.faults result }

        // What this sink says beyond any other.
        ensures counted { self.new.faults ≡ faults_after result self.old.faults }
        ensures inner { WriteAppends (W.contents self.old.inner) (W.contents self.new.inner)
            result bytes.now }
    {
        match self.inner.write(bytes) {
            Ok(count) if count > 0 => Ok(count as u64),
            _ => {
                self.faults = self.faults.saturating_add(1);
                Err(WriteError::Failed)
            }
        }
    }
}
