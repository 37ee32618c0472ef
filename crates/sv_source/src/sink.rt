// Where a translation's bytes go.
ghost use Rattle.std.specs.Prelude.{◌≡◌, ◌≤◌, List, ℕ, Option, length};
ghost use Rattle.sv_source.specs.Putting.{Gains, PutCause, KeepsRoom};

/// Whether a sink took a piece.
#[derive(Clone, Copy, PartialEq, Eq, Debug)]
pub enum Put {
    /// The piece was taken whole.
    Ok,
    /// The sink failed, and took a front of the piece, perhaps nothing.
    Failed,
}

/// A place that bytes are written to, piece by piece.
pub trait Sink {
    /// The bytes written so far, where the sink tells them.
    ghost written: { Self → Option (List ℕ) };

    /// How often a put has failed. It never falls.
    ghost faults: { Self → ℕ };

    /// How many bytes the sink is sure to take, or 0 where it doesn't tell.
    ghost spare: { Self → ℕ };

    /// Appends the piece. An empty piece is taken and changes nothing. It takes no memory.
    fn put(&mut self, piece: &[u8]) -> Put
        // The bytes are appended whole, or a front of them where the put fails.
        ensures bytes { Gains (written self.old) (written self.new) piece.now result }
        ensures later { faults self.old ≤ faults self.new }
        // It fails only where the count of faults rose.
        ensures cause { PutCause result (faults self.old) (faults self.new) }
        // It never fails within the spare room that is told; an empty piece always is within it.
        ensures room { length piece.now ≤ spare self.old → KeepsRoom (spare self.old) (spare self.new) (length piece.now) result };
}
