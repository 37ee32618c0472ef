//! The law of the writer and the reader of target texts.

ghost use Rattle.v_round_trip.specs.RoundTrip.{WrittenReadsBack, RewrittenKeepsReading};

/// The law that what `v_writer::write_text` writes of a design, `v_reader::read_verilog` reads as that design, unless memory is
/// wanting: it gives no other design and refuses nothing.
#[tactic(auto, using(crate::proofs::RoundTrip::written_reads_back))]
pub fn written_reads_back()
    ensures { WrittenReadsBack }
{}

/// The law that what `rewrite` makes of a text reads as the design that the text reads as, and as no other, and that it stays as it
/// is when it is written again.
#[tactic(auto, using(crate::proofs::RoundTrip::rewritten_keeps_reading))]
pub fn rewritten_keeps_reading()
    ensures { RewrittenKeepsReading }
{}
