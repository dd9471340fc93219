ghost use Rattle.std.specs.Prelude.{◌≡◌, ℕ};
ghost use Rattle.reading.specs.Of.{text_of, start_of, count_of};
ghost use Rattle.reading.specs.Texts.{Next, NextRead};

use crate::reader::Records;
use faults::fault::RecordFault;
use frames::frame::Frame;
use parsing::read_record::read_record;

impl Records<'_> {
    // The frame of the next record, or none at the text's end. After a fault the same record is still to be read.
    // No `Iterator`: after a fault its items would not end, so `for` could not take them, and its `count` would hide ours.
    pub fn next(&mut self) -> Result<Option<Frame>, RecordFault>
        ensures text { text_of self.new ≡ text_of self.old }
        ensures cases { NextRead (text_of self.old) (start_of self.old) (count_of self.old) (start_of self.new) (count_of self.new) result }
        ensures exact { Next (text_of self.old) (start_of self.old) (count_of self.old) (start_of self.new) (count_of self.new) result }
    {
        if self.at == self.text.len() {
            return Ok(None);
        }
        let (frame, behind) = read_record(self.text, self.at, self.count + 1)?;
        self.at = behind;
        self.count += 1;
        Ok(Some(frame))
    }
}
