ghost use Rattle.std.specs.Prelude.{◌≡◌};
ghost use Rattle.std.specs.Result.{IfOk, result_err, result_ok};
ghost use Rattle.exports.specs.Piles.{argument, size_fault};

use crate::fault::ArgumentFault;
use frames::setting::SettingFault;
use kept::size::Size;

// What a picker is opened with.
#[derive(Drop)]
pub struct Settings<W, R> {
    pub size: Size,
    pub objective: W,
    pub matroid: R,
}

// What was made of the argument at that place of the signature.
pub(crate) fn argument<T>(place: u8, made: Result<T, SettingFault>) -> Result<T, ArgumentFault>
    ensures fault { result_err result ≡ argument place (result_err made) }
    ensures made { result_ok result ≡ result_ok made }
{
    made.map_err(|fault| ArgumentFault { place, fault })
}

// The size, which is the first argument of each signature.
pub(crate) fn size_of(size: u32) -> Result<Size, ArgumentFault>
    ensures fault { result_err result ≡ argument 1 (size_fault size) }
    ensures made { IfOk result (λ s. s.n ≡ size) }
{
    // a lone number: users are told the index 0
    let made = Size::new(size as usize).map_err(|refusal| SettingFault { refusal, index: 0 });
    argument(1, made)
}
