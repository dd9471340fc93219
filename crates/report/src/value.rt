ghost use Rattle.std.specs.Prelude.{◌≡◌, length, decimal};
ghost use Rattle.records.specs.Format.{hexadecimal};
ghost use Rattle.report.specs.Lines.{written};

use crate::written::Written;
use itoa::write_digits;

// The value of a line, and how it is written: with as few decimal digits as it takes, or with sixteen hexadecimal ones.
#[derive(Clone, Copy)]
pub(crate) enum Value {
    Decimal(u64),
    Hexadecimal(u64),
}

impl Written for Value {
    ghost text = { written };

    #[tactic(auto, using(crate::proofs::Numerals::sixteen_long))]
    fn room_after(&self, room: usize) -> Option<usize> {
        match *self {
            Value::Decimal(n) => room.checked_sub(decimal_len(n)),
            Value::Hexadecimal(_) => room.checked_sub(16),
        }
    }

    fn put(&self, out: &mut [u8]) -> Option<usize> {
        match *self {
            Value::Decimal(n) => {
                let len = decimal_len(n);
                let (front, _) = out.split_at_mut_checked(len)?;
                write_digits(n, front, len);
                Some(len)
            }
            Value::Hexadecimal(n) => hexadecimal(n).as_slice().put(out),
        }
    }
}

// How many decimal digits `n` takes, 0 as many as 1. Without a test for 0, which stands on some lines and not on others.
#[tactic(auto, using(crate::proofs::Numerals::decimal_long))]
fn decimal_len(n: u64) -> usize
    ensures { result ≡ length (decimal n) }
{
    n.max(1).ilog10() as usize + 1
}

// Sixteen hexadecimal digits, two for each byte.
#[tactic(auto, using(crate::proofs::Numerals::two_for_each_byte))]
fn hexadecimal(n: u64) -> [u8; 16]
    ensures { result ≡ hexadecimal n }
{
    let mut digits = [0; 16];
    hex::encode_to_slice(n.to_be_bytes(), &mut digits).unwrap();
    digits
}
