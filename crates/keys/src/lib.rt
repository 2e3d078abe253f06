// The four keys of a session, out of its key material and its chain value (RULES 7; MS-SMB2 3.1.4.2).
#![tactic(auto)]

ghost use Rattle.std.specs.Prelude.{◌≡◌, length};
ghost use Rattle.protocol.specs.Connection.{place_bytes};
ghost use Rattle.protocol.specs.Keys.{keys_in_order};
ghost use Rattle.protocol.specs.Calls.{derivation, only_keys};
ghost use Rattle.protocol.specs.Contract.{Returns};
ghost use Rattle.answer.specs.Reading.{number_in};
ghost use Rattle.dialects.specs.Reading.{wide_in};
ghost use Rattle.derived_keys.specs.Reading.{keys_in};

use answer::Refusal;
use connection::KeySize;
use derived_keys::Keys;
use runs::copy;

// The four keys in the order of the table: two keys of 16 bytes, then two cipher keys.
fn write(place: &mut [u8], size: KeySize, keys: Keys)
    requires { length place.old ≡ place_bytes (wide_in size) }
    ensures { place.new ≡ keys_in_order (keys_in (wide_in size) keys) }
{
    let n = size.key_bytes();
    copy(place, 0, &keys.signing);
    copy(place, 16, &keys.application);
    copy(place, 32, &keys.client_to_server[..n]);
    copy(place, 32 + n, &keys.server_to_client[..n]);
}

// Writes the four keys: signing, application, client to server, server to client.
pub fn derive(
    dialect: u16,
    cipher: u16,
    material: &[u8],
    chain: &[u8],
    keys: &mut [u8],
) -> Result<(), Refusal>
    ensures { Returns (derivation dialect cipher chain.now material.now) (only_keys keys.old) (number_in result) (only_keys keys.new) }
{
    key_refusals::derivation_tests(dialect, cipher, material, chain, keys)?;
    let size = KeySize::of(dialect, cipher);
    write(
        keys,
        size,
        derived_keys::derived(dialect, cipher, chain, material),
    );
    Ok(())
}
