// The tests before keys are derived (RULES 7), in the order of the table of numbers.
#![tactic(auto)]

ghost use Rattle.std.specs.Prelude.{◌≡◌};
ghost use Rattle.protocol.specs.Answer.{first_of};
ghost use Rattle.protocol.specs.Calls.{material_tests, derivation_tests};
ghost use Rattle.answer.specs.Reading.{number_in};

use answer::{Refusal, refuse};
use connection::KeySize;

// 18, 19: of deriving and adding.
pub fn material_tests(dialect: u16, cipher: u16, material: &[u8]) -> Result<(), Refusal>
    ensures { number_in result ≡ first_of (material_tests dialect cipher material.now) }
{
    let wide = KeySize::of(dialect, cipher).is_wide();
    let long = wide & (connection::longest_material() < material.len());
    refuse(!connection::known_dialect(dialect), Refusal::UnknownDialect)?;
    refuse((material.len() == 0) | long, Refusal::BadKeyMaterial)
}

// 40, 18, 19.
pub fn derivation_tests(
    dialect: u16,
    cipher: u16,
    material: &[u8],
    chain: &[u8],
    keys: &[u8],
) -> Result<(), Refusal>
    ensures { number_in result ≡ first_of (derivation_tests dialect cipher chain.now material.now keys.now) }
{
    let bytes = KeySize::of(dialect, cipher).place_bytes();
    let fits = (chain.len() == 64) & (keys.len() == bytes);
    refuse(!fits, Refusal::BadLength)?;
    material_tests(dialect, cipher, material)
}
