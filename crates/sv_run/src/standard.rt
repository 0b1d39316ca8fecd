// Standard input and output as a source and a sink.
use crate::streams::{Failed, Sink, Source};
use std::io::{self, Read, Write};

/// Standard input. What it gives is not told: that it gives what was sent is trusted.
#[derive(Drop)]
pub struct StdSource<R: Input + Drop> {
    rt: R,
    faults: u64,
}

impl<R: Input + Drop> StdSource<R> {
    /// Over the runtime, which it keeps.
    pub fn new(rt: R) -> StdSource<R> {
        StdSource { rt, faults: 0 }
    }
}

impl<R: Input + Drop> Source for StdSource<R> {
    ghost use Rattle.std.specs.Prelude.{None};

    ghost left = { λ _. None };

    ghost faults = { λ s. s.faults };

    fn read(&mut self, buf: &mut [u8]) -> Result<usize, Failed> {
        match self.rt.reader().read(buf) {
            Ok(count) => Ok(count),
            Err(_) => {
                self.faults = self.faults.saturating_add(1);
                Err(Failed)
            }
        }
    }
}

/// Standard output. What becomes of the bytes is not told: that they arrive is trusted.
#[derive(Drop)]
pub struct StdSink<R: Print + Drop> {
    rt: R,
    faults: u64,
}

impl<R: Print + Drop> StdSink<R> {
    /// Over the runtime, which it keeps.
    pub fn new(rt: R) -> StdSink<R> {
        StdSink { rt, faults: 0 }
    }
}

impl<R: Print + Drop> Sink for StdSink<R> {
    ghost use Rattle.std.specs.Prelude.{None};

    ghost written = { λ _. None };

    ghost faults = { λ s. s.faults };

    fn write(&mut self, piece: &[u8]) -> Result<usize, Failed> {
        match io::writer(&self.rt).write(piece) {
            Ok(count) if count > 0 || piece.is_empty() => Ok(count),
            _ => {
                self.faults = self.faults.saturating_add(1);
                Err(Failed)
            }
        }
    }
}
