//! Where bytes come from and where they go.
ghost use Rattle.std.specs.Prelude.{◌≡◌, ◌≤◌, ◌<◌, ◌-◌, ℕ, List, Option, Result, length, IfOk, OnErr};
ghost use Rattle.std.specs.Io.{ReadsAtMost, WritesAtMost};
ghost use Rattle.std.specs.Io.KnownBytes.{ReadConsumes, WriteAppends};
ghost use Rattle.life_core.specs.Faults.{Rose};
ghost use Rattle.life_core.specs.declared.outside.Failed.{Failed};

/// A fault of a source or a sink.
#[derive(Clone, Copy, Debug)]
pub struct Failed;

/// Where bytes come from.
pub trait Source {
    /// The bytes that it has left, where it tells that.
    ghost rest: { Self → Option (List ℕ) };

    /// How many calls failed, which stands still at 2^64 - 1.
    ghost faults: { Self → ℕ };

    /// None of its calls will fail.
    ghost reliable: { Self → Type 0 };

    /// What more is known of a read: the source before, how many bytes the buffer is for, the answer, the
    /// source after.
    ghost reads: { Self → ℕ → Result ℕ Failed → Self → Type 0 };

    /// Takes the next bytes into the front of the buffer, and answers how many. None for a buffer that is
    /// not empty is the end. It fails only where the count of faults rose.
    fn read(&mut self, buf: &mut [u8]) -> Result<usize, Failed>
        ensures reads { reads self.old (length buf.new) result self.new }
        ensures bound { ReadsAtMost result buf.new }
        ensures bytes { ReadConsumes (rest self.old) (rest self.new) result buf.new }
        ensures cause { OnErr result (Rose (faults self.old) (faults self.new)) }
        ensures later { faults self.old ≤ faults self.new }
        ensures reliable { reliable self.old → (faults self.new ≡ faults self.old)
            × reliable self.new };
}

/// Where bytes go.
pub trait Sink {
    /// The bytes that it holds, where it tells that.
    ghost held: { Self → Option (List ℕ) };

    /// How many calls failed, which stands still at 2^64 - 1.
    ghost faults: { Self → ℕ };

    /// It takes this many more bytes, and none of those calls will fail.
    ghost reliable: { Self → ℕ → Type 0 };

    /// What more is known of a write: the sink before, how many bytes the buffer has, the answer, the sink
    /// after.
    ghost writes: { Self → ℕ → Result ℕ Failed → Self → Type 0 };

    /// Takes bytes from the front of the buffer, at least one where it is not empty, and answers how many.
    /// It fails only where the count of faults rose, and then takes none.
    fn write(&mut self, buf: &[u8]) -> Result<usize, Failed>
        ensures writes { writes self.old (length buf.now) result self.new }
        ensures bound { WritesAtMost result buf.now }
        ensures some { IfOk result (λ count. 0 < length buf.now → 0 < count) }
        ensures bytes { WriteAppends (held self.old) (held self.new) result buf.now }
        ensures cause { OnErr result (Rose (faults self.old) (faults self.new)) }
        ensures later { faults self.old ≤ faults self.new }
        ensures reliable { (room : ℕ) → reliable self.old room → length buf.now ≤ room
            → (faults self.new ≡ faults self.old) × IfOk result
            (λ count. reliable self.new (room - count)) };
}
