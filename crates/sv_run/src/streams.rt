// Where a script comes from and where the report goes, as traits that count their faults.
ghost use Rattle.std.specs.Prelude.{◌<◌, ℕ, List, Option, IfOk, length};
ghost use Rattle.std.specs.Io.{ReadsAtMost, WritesAtMost};
ghost use Rattle.std.specs.Io.KnownBytes.{ReadConsumes, WriteAppends};
ghost use Rattle.sv_model.specs.Faults.{HasCause};

/// A read or a write failed; the count of faults of that stream has risen.
#[derive(Clone, Copy, Debug, PartialEq, Eq)]
pub struct Failed;

/// A stream that a script is read from.
pub trait Source {
    /// The bytes that are left, where the source tells them.
    ghost left: { Self → Option (List ℕ) };
    /// How many of its calls failed; it stands still at the last value of a `u64`.
    ghost faults: { Self → ℕ };

    /// Reads the next bytes into the front of the buffer, and says how many. 0 for a buffer that is
    /// not empty is the end of the input. A call that fails moves nothing.
    fn read(&mut self, buf: &mut [u8]) -> Result<usize, Failed>
        ensures count { ReadsAtMost result buf.new }
        ensures bytes { ReadConsumes (left self.old) (left self.new) result buf.new }
        ensures cause { HasCause (faults self.old) (faults self.new) result };
}

/// A stream that a report is written to.
pub trait Sink {
    /// The bytes written so far, where the sink tells them.
    ghost written: { Self → Option (List ℕ) };
    /// How many of its calls failed; it stands still at the last value of a `u64`.
    ghost faults: { Self → ℕ };

    /// Writes a front of the piece, and says how many bytes: at least one, where the piece has one.
    /// A call that fails writes nothing.
    fn write(&mut self, piece: &[u8]) -> Result<usize, Failed>
        ensures count { WritesAtMost result piece.now }
        ensures some { IfOk result (λ n. 0 < length piece.now → 0 < n) }
        ensures bytes { WriteAppends (written self.old) (written self.new) result piece.now }
        ensures cause { HasCause (faults self.old) (faults self.new) result };
}
