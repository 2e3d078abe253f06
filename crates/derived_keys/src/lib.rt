// The table of RULES 7: a label and a context for each key.
#![tactic(auto)]

mod purpose;

ghost use Rattle.std.specs.Prelude.{◌≡◌};
ghost use Rattle.protocol.specs.Keys.{derived_keys};
ghost use Rattle.protocol.specs.Suite.{kdf};
ghost use Rattle.dialects.specs.Reading.{wide_in};
ghost use Rattle.derived_keys.specs.Reading.{stored};
ghost use Rattle.derived_keys.specs.Purposes.{keys_by};

use blocks::zero_padded;
use connection::{KeySize, SMB_311};
use purpose::{Purposes, of_300, of_311};

// A cipher key of 16 bytes has zeros behind it.
#[derive(Clone, Copy)]
pub struct Keys {
    pub signing: [u8; 16],
    pub application: [u8; 16],
    pub client_to_server: [u8; 32],
    pub server_to_client: [u8; 32],
}

// The four keys by a column of the table.
fn keys_for(size: KeySize, material: &[u8], purposes: Purposes) -> Keys
    ensures { result ≡ stored (keys_by (wide_in size) material.now purposes.entry) }
{
    let session_key = zero_padded(material);
    let signing = purposes.signing.key(session_key);
    let application = purposes.application.key(session_key);
    let client_to_server = purposes.client_to_server.cipher_key(size, material);
    let server_to_client = purposes.server_to_client.cipher_key(size, material);
    Keys {
        signing,
        application,
        client_to_server,
        server_to_client,
    }
}

// The four keys out of the key material.
pub fn derived(dialect: u16, cipher: u16, chain: &[u8], material: &[u8]) -> Keys
    ensures { result ≡ stored (derived_keys kdf dialect cipher chain.now material.now) }
{
    if dialect == SMB_311 {
        keys_for(KeySize::of(dialect, cipher), material, of_311(chain))
    } else {
        keys_for(KeySize::Bits128, material, of_300())
    }
}
