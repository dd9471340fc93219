use frames::setting::SettingFault;

// A refused argument: its place in the signature, counted from 1, and what is wrong with it. C is told the place, which
// differs from one signature to the next, so no enum of arguments names it.
#[derive(Clone, Copy, PartialEq, Eq, Debug)]
pub struct ArgumentFault {
    pub place: u8,
    pub fault: SettingFault,
}
