ghost use Rattle.picker.specs.Calls.{reading};
ghost use Rattle.picker.specs.Met.{Carries};
ghost use Rattle.picker.specs.Texts.{TextOffered, RecordOffered};

use crate::arrival::Arrival;
use crate::picker::Picker;
use faults::fault::{RecordFault, TextFault};
use matroids::matroid::Matroid;
use objectives::objective::Objective;
use reading::reader::Records;

// The most bytes of a text that is looked into; `digest` reads one byte more.
const LONGEST_TEXT: usize = 65_536;

impl<W: Objective, R: Matroid> Picker<W, R> {
    // Takes in the frame of a record, unless the shift is full. Record and start stay two numbers: a struct of them would be
    // made for this one call, and taken apart at once (`lines::place::Place` is below what a picker stands on).
    fn take_record(
        &mut self,
        arrival: Arrival,
        record: usize,
        start: usize,
    ) -> Result<(), RecordFault>
        ensures { RecordOffered W.Objective R.Matroid self.old arrival.frame «record» start result self.new }
    {
        if self.is_full() {
            return Err(RecordFault::ShiftFull {
                record,
                byte: start,
            });
        }
        let _ = self.take_in(arrival);
        Ok(())
    }

    // Offers a text's records in turn, and answers how many. It stops at the first fault, and the records before it
    // stand; a text of over 65,536 bytes is not looked into. Records are no iterator, so this is a `loop`.
    pub fn offer_text(&mut self, text: &[u8]) -> Result<usize, TextFault>
        ensures step { TextOffered W.Objective R.Matroid self.old text.now result self.new }
        ensures carries { Carries W.Objective R.Matroid (reading text.now) self.old self.new }
    {
        if text.len() > LONGEST_TEXT {
            return Err(TextFault::LongText);
        }
        let mut records = Records::new(text);
        loop {
            let start = records.start();
            let Some(x) = records.next()? else {
                return Ok(records.count());
            };
            self.take_record(Arrival { frame: x }, records.count(), start)?;
        }
    }
}
