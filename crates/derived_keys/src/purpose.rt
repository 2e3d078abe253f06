// What a key is derived for. Labels and fixed contexts carry their own final zero byte.
ghost use Rattle.std.specs.Prelude.{◌≡◌};
ghost use Rattle.octets.specs.Blocks.{zero_padded};
ghost use Rattle.protocol.specs.Connection.{cipher_key_bytes};
ghost use Rattle.protocol.specs.Keys.{cipher_material};
ghost use Rattle.protocol.specs.Suite.{kdf};
ghost use Rattle.dialects.specs.Reading.{wide_in};
ghost use Rattle.derived_keys.specs.Purposes.{IsFor311, IsFor300};

use blocks::zero_padded;
use connection::KeySize;
use kdf::derive;

#[derive(Clone, Copy)]
pub struct Purpose<'a> {
    pub label: &'a [u8],
    pub context: &'a [u8],
}

impl Purpose<'_> {
    // A key of 16 bytes out of the session key.
    pub fn key(self, session_key: [u8; 16]) -> [u8; 16]
        ensures { result ≡ kdf 16 session_key self.entry.label.now self.entry.context.now }
    {
        derive::<16>(&session_key, self.label, self.context)
    }

    // A cipher key: of 32 bytes out of the full material, or of 16 out of the session key.
    pub fn cipher_key(self, size: KeySize, material: &[u8]) -> [u8; 32]
        ensures { result ≡ zero_padded 32 (kdf (cipher_key_bytes (wide_in size)) (cipher_material (wide_in size) material.now) self.entry.label.now self.entry.context.now) }
    {
        match size {
            KeySize::Bits128 => zero_padded(&self.key(zero_padded(material))),
            KeySize::Bits256 => derive::<32>(material, self.label, self.context),
        }
    }
}

// A column of the table.
#[derive(Clone, Copy)]
pub struct Purposes<'a> {
    pub signing: Purpose<'a>,
    pub application: Purpose<'a>,
    pub client_to_server: Purpose<'a>,
    pub server_to_client: Purpose<'a>,
}

// 3.1.1: the context is the chain value.
pub fn of_311(chain: &[u8]) -> Purposes
    ensures { IsFor311 chain.now result }
{
    Purposes {
        signing: Purpose {
            label: b"SMBSigningKey\0",
            context: chain,
        },
        application: Purpose {
            label: b"SMBAppKey\0",
            context: chain,
        },
        client_to_server: Purpose {
            label: b"SMBC2SCipherKey\0",
            context: chain,
        },
        server_to_client: Purpose {
            label: b"SMBS2CCipherKey\0",
            context: chain,
        },
    }
}

// 3.0 and 3.0.2: the contexts are fixed. "ServerIn " ends in a space.
pub fn of_300() -> Purposes<'static>
    ensures { IsFor300 result }
{
    Purposes {
        signing: Purpose {
            label: b"SMB2AESCMAC\0",
            context: b"SmbSign\0",
        },
        application: Purpose {
            label: b"SMB2APP\0",
            context: b"SmbRpc\0",
        },
        client_to_server: Purpose {
            label: b"SMB2AESCCM\0",
            context: b"ServerIn \0",
        },
        server_to_client: Purpose {
            label: b"SMB2AESCCM\0",
            context: b"ServerOut\0",
        },
    }
}
