// SHA-256, SHA-512, HMAC-SHA-256 and the key derivation of SP 800-108.
ghost use Rattle.std.specs.Prelude.{eqb, length};
ghost use Rattle.sha_2.specs.Sha2.{hash};
ghost use Rattle.sha_2.specs.Sha256.{sha256};
ghost use Rattle.sha_2.specs.Sha512.{sha512};
ghost use Rattle.hmac.specs.Hmac as fips198;
ghost use Rattle.kdf.specs.CounterMode.{derive_sha256};
ghost use Rattle.test_primitives.specs.Exports.{Writes};

// Writes a value to its place, where that is as long.
fn put(value: &[u8], place: &mut [u8]) -> u32
    ensures { Writes (eqb (length place.old) (length value.now)) value.now place.old place.new result }
{
    if place.len() == value.len() {
        runs::copy(place, 0, value);
        return 0;
    }
    40
}

#[unsafe(no_mangle)]
pub extern "C" fn primitives_sha256(message: &[u8], digest: &mut [u8]) -> u32
    ensures { Writes (eqb (length digest.old) 32) (hash sha256 message.now) digest.old digest.new result }
{
    let value = sha256::hash(message);
    put(&value, digest)
}

#[unsafe(no_mangle)]
pub extern "C" fn primitives_sha512(message: &[u8], digest: &mut [u8]) -> u32
    ensures { Writes (eqb (length digest.old) 64) (hash sha512 message.now) digest.old digest.new result }
{
    let value = sha512::hash(message);
    put(&value, digest)
}

#[unsafe(no_mangle)]
pub extern "C" fn primitives_hmac(key: &[u8], message: &[u8], code: &mut [u8]) -> u32
    ensures { Writes (eqb (length code.old) 32) (fips198.hmac sha256 key.now message.now) code.old code.new result }
{
    let value = hmac::hmac(key, message);
    put(&value, code)
}

#[unsafe(no_mangle)]
pub extern "C" fn primitives_kdf(
    key: &[u8],
    label: &[u8],
    context: &[u8],
    derived: &mut [u8],
) -> u32
    ensures { Writes (eqb (length derived.old) 16) (derive_sha256 16 key.now label.now context.now) derived.old derived.new result }
{
    let value = kdf::derive::<16>(key, label, context);
    put(&value, derived)
}

// A key of 32 bytes.
#[unsafe(no_mangle)]
pub extern "C" fn primitives_kdf_32(
    key: &[u8],
    label: &[u8],
    context: &[u8],
    derived: &mut [u8],
) -> u32
    ensures { Writes (eqb (length derived.old) 32) (derive_sha256 32 key.now label.now context.now) derived.old derived.new result }
{
    let value = kdf::derive::<32>(key, label, context);
    put(&value, derived)
}
