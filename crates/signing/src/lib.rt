// Signing a message in clear, and verifying it, under one given key (RULES 15; MS-SMB2 3.1.4.1 and 3.1.5.1).
#![tactic(auto)]

ghost use Rattle.std.specs.Prelude.{◌≡◌, ◌<◌, ◌≤◌, false, length};
ghost use Rattle.protocol.specs.Answer.{first_of};
ghost use Rattle.protocol.specs.Signing.{is_signed, with_signed_flag, signature_under};
ghost use Rattle.protocol.specs.Calls.{signing_under, verifying_under, only_message, sign_tests};
ghost use Rattle.protocol.specs.Contract.{Returns};
ghost use Rattle.protocol.specs.Suite as suite;
ghost use Rattle.answer.specs.Reading.{number_in};

use answer::{Refusal, refuse};
use arrays::bytes_at;
use cmac::Mac;
use little_endian::{number_at, to_bytes};
use runs::copy;

// 40, 3, 11, 12.
fn sign_tests(key: &[u8], m: &[u8]) -> Result<(), Refusal>
    ensures { number_in result ≡ first_of (sign_tests key.now m.now) }
{
    refusals::signing_key_tests(key)?;
    refuse(connection::longest_message() < m.len(), Refusal::TooLong)?;
    refuse(m.len() < 64, Refusal::InnerTooShort)?;
    refuse(!protocol_id::begins(m, 0, 0xFE), Refusal::NotHeader)
}

// SMB2_FLAGS_SIGNED is set; not where there is no whole header.
pub fn is_signed(m: &[u8]) -> bool
    ensures header { 64 ≤ length m.now → result ≡ is_signed m.now }
    ensures short { length m.now < 64 → result ≡ false }
{
    if m.len() < 64 {
        return false;
    }
    number_at::<4>(m, 16) / 8 % 2 == 1
}

// Sets the flag; the others stay, and so does what is too short for a header.
pub fn set_signed(m: &mut [u8])
    ensures header { 64 ≤ length m.old → m.new ≡ with_signed_flag m.old }
    ensures short { length m.old < 64 → m.new ≡ m.old }
{
    if m.len() < 64 {
        return;
    }
    let flags = to_bytes::<4>(number_at::<4>(m, 16) | 8);
    copy(m, 16, &flags);
}

// Of the header a copy is taken in, with zeros for the signature, so that no byte of the message changes.
fn signature(key: &[u8], m: &[u8]) -> [u8; 16]
    requires { (length key.now ≡ 16) × (64 ≤ length m.now) }
    ensures { result ≡ signature_under suite.cmac key.now m.now }
{
    let cipher = aes::Cipher::new(key);
    let mut header = [0u8; 64];
    copy(&mut header, 0, &m[..48]);
    Mac::new()
        .update(&cipher, &header)
        .update(&cipher, &m[64..])
        .finish(&cipher)
}

// Signs the message in place: 40, 3, 11, 12. Refused, the message is as it was lent.
pub fn sign(key: &[u8], message: &mut [u8]) -> Result<(), Refusal>
    ensures { Returns (signing_under key.now) (only_message message.old) (number_in result) (only_message message.new) }
{
    sign_tests(key, message)?;
    set_signed(message);
    let stored = signature(key, message);
    copy(message, 48, &stored);
    Ok(())
}

// Verifies the message: 40, 3, 11, 12, 24, 25.
pub fn verify(key: &[u8], message: &[u8]) -> Result<(), Refusal>
    ensures { Returns (verifying_under key.now) (only_message message.now) (number_in result) (only_message message.now) }
{
    sign_tests(key, message)?;
    refuse(!is_signed(message), Refusal::NotSigned)?;
    let right = compare::same_16(bytes_at(message, 48), signature(key, message));
    refuse(!right, Refusal::BadSignature)
}
