ghost use Rattle.records.specs.Format.{shown};
ghost use Rattle.records.specs.Sheets.{Printed};
ghost use Rattle.report.specs.Digest.{digest, fault_lines, ReadsBack, RecordBack};

use crate::counts::Counts;
use crate::kept::Places;
use crate::{line, written};
use faults::fault::TextFault;
use frames::entry::Entry;
use frames::frame::Frame;
use frames::refusal::Refusal;

// A print-out writes its lines at the front of `out`, keeps the bytes behind them, and answers their length. A buffer that
// is too short for them is refused, and stays as it was.

// The record of `x`. For a frame in range it reads back as that frame, with the text behind it untouched.
#[tactic(auto, using(records::proofs::Roundtrip::read_shown))]
pub fn print_record(x: &Frame, out: &mut [u8]) -> Result<usize, Refusal>
    ensures printed { Printed (shown x.now) out.old out.new result }
    ensures reads_back { RecordBack x.now }
{
    written::print(&line::record_lines(x), out)
}

// The counts, and then the kept frames with their places and gains.
#[tactic(auto, using(crate::proofs::Places::reads_back), unfolding(crate::specs::Digest::digest))]
pub fn print_digest(counts: &Counts, kept: &[Entry], out: &mut [u8]) -> Result<usize, Refusal>
    ensures printed { Printed (digest counts.now kept.now) out.old out.new result }
    ensures reads_back { ReadsBack counts.now kept.now }
{
    let digest = (line::count_lines(counts), Places { entries: kept });
    written::print(&digest, out)
}

// Why and where a text stopped.
pub fn print_fault(fault: &TextFault, out: &mut [u8]) -> Result<usize, Refusal>
    ensures printed { Printed (fault_lines fault.now) out.old out.new result }
{
    written::print(&line::fault_lines(fault), out)
}
