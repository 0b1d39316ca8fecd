// A source and a sink in memory, some of whose calls fail.
ghost use Rattle.std.specs.Prelude.{◌≡◌, ◌<◌, ◌≤◌, ◌==◌, [], min, length, take, drop, IfOk, is_err, true, Some};
ghost use Rattle.std.specs.List.{list_any};
ghost use Rattle.std.specs.Io.{ReadsAtMost, WritesAtMost};
ghost use Rattle.std.specs.Io.KnownBytes.{ReadConsumes, WriteAppends};
ghost use Rattle.sv_model.specs.Faults.{HasCause};

use crate::streams::{Failed, Sink, Source};
use std::alloc::Global;
use std::marker::Model;

/// Bytes in memory that are read in pieces. Contracts see the bytes that are left, the greatest piece of
/// one call, the numbers of the calls that fail, and how many calls were made and failed.
#[derive(Drop)]
pub struct MemSource {
    bytes: Vec<u8>,
    at: usize,
    piece: u64,
    fails: Vec<u64>,
    calls: u64,
    faults: u64,
}

impl Model for MemSource {
    ghost use Rattle.std.specs.Prelude.{◌<◌, ◌≤◌, drop, length};
    ghost use Rattle.sv_run.specs.Memory.{Stream};

    ghost Value = { Stream };

    ghost view = { λ s. record { bytes = drop s.at s.bytes.items; piece = s.piece; fails = s.fails.items; calls = s.calls; faults = s.faults } };

    ghost invariant = { λ s. (s.at ≤ length s.bytes.items) × (0 < s.piece) };
}

impl MemSource {
    /// These bytes, read at most `piece` at a time, at least 1; the calls of these numbers, from 1,
    /// fail. Takes no memory.
    pub fn new(bytes: Vec<u8>, piece: u64, fails: Vec<u64>) -> MemSource
        requires { 0 < piece }
        ensures { result ≡ record { bytes = bytes.items; piece = piece; fails = fails.items; calls = 0; faults = 0 } }
    {
        MemSource {
            bytes,
            at: 0,
            piece,
            fails,
            calls: 0,
            faults: 0,
        }
    }
}

impl Source for MemSource {
    ghost left = { λ s. Some s.bytes };

    ghost faults = { λ s. s.faults };

    fn read(&mut self, buf: &mut [u8]) -> Result<usize, Failed>
        ensures failed { is_err result ≡ list_any (λ call. call == self.new.calls) self.old.fails }
        ensures moved { IfOk result (λ n. n ≡ min (min (length buf.old) (length self.old.bytes)) self.old.piece) }
        ensures count { ReadsAtMost result buf.new }
        ensures bytes { ReadConsumes (Some self.old.bytes) (Some self.new.bytes) result buf.new }
        ensures cause { HasCause self.old.faults self.new.faults result }
    {
        self.calls = self.calls.saturating_add(1);
        if self.fails.contains(&self.calls) {
            self.faults = self.faults.saturating_add(1);
            return Err(Failed);
        }
        let count = buf
            .len()
            .min(self.bytes.len() - self.at)
            .min(self.piece as usize);
        fill_front(buf, &self.bytes[self.at..self.at + count]);
        self.at += count;
        Ok(count)
    }
}

fn fill_front(buf: &mut [u8], bytes: &[u8])
    requires { length bytes.now ≤ length buf.old }
    ensures { take (length bytes.now) buf.new ≡ bytes.now }
{
    buf[..bytes.len()].copy_from_slice(bytes);
}

/// A sink that keeps what is written. Contracts see it as the same parts, with the bytes written.
#[derive(Drop)]
pub struct MemSink {
    bytes: Vec<u8>,
    piece: u64,
    fails: Vec<u64>,
    calls: u64,
    faults: u64,
}

impl Model for MemSink {
    ghost use Rattle.std.specs.Prelude.{◌<◌};
    ghost use Rattle.sv_run.specs.Memory.{Stream};

    ghost Value = { Stream };

    ghost view = { λ s. record { bytes = s.bytes.items; piece = s.piece; fails = s.fails.items; calls = s.calls; faults = s.faults } };

    ghost invariant = { λ s. 0 < s.piece };
}

impl MemSink {
    /// Takes at most `piece` bytes at a time, at least 1; the calls of these numbers, from 1, fail.
    /// Takes no memory.
    pub fn new(alloc: Global, piece: u64, fails: Vec<u64>) -> MemSink
        requires { 0 < piece }
        ensures { result ≡ record { bytes = []; piece = piece; fails = fails.items; calls = 0; faults = 0 } }
    {
        MemSink {
            bytes: Vec::new(alloc),
            piece,
            fails,
            calls: 0,
            faults: 0,
        }
    }

    /// What was written.
    pub fn bytes(&self) -> &[u8]
        ensures { result.now ≡ self.now.bytes }
    {
        self.bytes.as_slice()
    }
}

impl Sink for MemSink {
    ghost written = { λ s. Some s.bytes };

    ghost faults = { λ s. s.faults };

    /// A growth for which no memory is had is a failure of the call too.
    fn write(&mut self, piece: &[u8]) -> Result<usize, Failed>
        ensures due { list_any (λ call. call == self.new.calls) self.old.fails ≡ true → is_err result ≡ true }
        ensures moved { IfOk result (λ n. n ≡ min (length piece.now) self.old.piece) }
        ensures count { WritesAtMost result piece.now }
        ensures some { IfOk result (λ n. 0 < length piece.now → 0 < n) }
        ensures bytes { WriteAppends (Some self.old.bytes) (Some self.new.bytes) result piece.now }
        ensures cause { HasCause self.old.faults self.new.faults result }
    {
        self.calls = self.calls.saturating_add(1);
        if self.fails.contains(&self.calls) {
            self.faults = self.faults.saturating_add(1);
            return Err(Failed);
        }
        let count = piece.len().min(self.piece as usize);
        match self.bytes.extend_from_slice(&piece[..count]) {
            Ok(()) => Ok(count),
            Err(_) => {
                self.faults = self.faults.saturating_add(1);
                Err(Failed)
            }
        }
    }
}
