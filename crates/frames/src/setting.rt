ghost use Rattle.std.specs.Prelude.{◌≡◌, ℕ, ◌<◌, ◌≤◌, ◌%◌, length, slice_index, OnOk, Some};
ghost use Rattle.std.specs.Result.{result_err};
ghost use Rattle.std.specs.List.{AllByRecursion};
ghost use Rattle.frames.specs.Refusals.{fault_text};
ghost use Rattle.frames.specs.Settings.{count_fault, numbers_fault};

use crate::refusal::Refusal;
use std::error::Error;
use std::fmt;

// Why settings are refused.
#[derive(Clone, Copy, PartialEq, Eq, Debug)]
pub struct SettingFault {
    pub refusal: Refusal,
    // of the number at fault; for a lone number, and for a list that is too short or too long, users are told 0 there
    pub index: usize,
}

impl From<SettingFault> for Refusal {
    ghost from_gives = { λ e r. r ≡ e.refusal };

    fn from(e: SettingFault) -> Refusal {
        e.refusal
    }
}

impl fmt::Display for SettingFault {
    ghost output = { λ e. Some (fault_text e) };

    fn fmt<W: fmt::Write>(&self, f: &mut fmt::Formatter<W>) -> fmt::Result {
        write!(f, "{}, at index {}", self.refusal, self.index)
    }
}

impl Error for SettingFault {}

// Checks that a list of settings has `count` numbers.
pub fn check_count(numbers: &[u32], count: usize) -> Result<(), SettingFault>
    ensures fault { result_err result ≡ count_fault count numbers.now }
    ensures accepted { OnOk result (length numbers.now ≡ count) }
{
    if numbers.len() == count {
        Ok(())
    } else {
        Err(SettingFault {
            refusal: Refusal::Miscount,
            index: 0,
        })
    }
}

// Checks a list of settings: it has `count` numbers, each at most `highest`.
#[tactic(auto, unfolding(crate::specs::Settings::numbers_fault))]
pub fn check_numbers(numbers: &[u32], count: usize, highest: u32) -> Result<(), SettingFault>
    ensures fault { result_err result ≡ numbers_fault count highest numbers.now }
    ensures accepted { OnOk result ((length numbers.now ≡ count) × AllByRecursion (λ n. n ≤ highest) numbers.now) }
{
    check_count(numbers, count)?;
    for (i, n) in numbers.iter().enumerate() {
        if *n > highest {
            return Err(SettingFault {
                refusal: Refusal::Over,
                index: i,
            });
        }
    }
    Ok(())
}

// The low byte of each of the first `N` numbers, 0 where there is none.
pub fn low_bytes<const N: usize>(numbers: &[u32]) -> [u8; N]
    ensures { (i : ℕ) → i < N → slice_index result i ≡ slice_index numbers.now i % 256 }
{
    // Tried as `array::from_fn`: its clause has each call made from some capture, which need not be these numbers.
    let mut bytes = [0; N];
    for (i, byte) in bytes.iter_mut().enumerate() {
        *byte = low_byte(numbers, i);
    }
    bytes
}

fn low_byte(numbers: &[u32], i: usize) -> u8
    ensures { result ≡ slice_index numbers.now i % 256 }
{
    numbers.get(i).map_or(0, |n| (n % 256) as u8)
}
