use spots::fault::LineFault;

// Why a record cannot be taken in: a line of it cannot be read, or the shift is full.
#[derive(Clone, Copy, PartialEq, Eq, Debug)]
pub enum RecordFault {
    Line(LineFault),
    ShiftFull { record: usize, byte: usize },
}

// Why a text was not taken in whole: a record of it, or the text is too long.
#[derive(Clone, Copy, PartialEq, Eq, Debug)]
pub enum TextFault {
    Record(RecordFault),
    LongText,
}
