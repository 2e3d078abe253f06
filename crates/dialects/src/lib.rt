// Dialects and ciphers by their numbers, and the sizes of keys that follow from them (RULES 1, 6 and 7). They stay numbers: any may come from C or in
// a trace, and the tests of 1 and 18 say which are known.
#![tactic(auto)]

ghost use Rattle.std.specs.Prelude.{◌≡◌};
ghost use Rattle.protocol.specs.Connection.{known_dialect, is_gcm, is_wide, cipher_key_bytes, place_bytes};
ghost use Rattle.dialects.specs.Reading.{wide_in};

// 3.1.1, the only dialect with ciphers to choose from.
pub const SMB_311: u16 = 0x0311;

pub fn known_dialect(dialect: u16) -> bool
    ensures { result ≡ known_dialect dialect }
{
    matches!(dialect, 0x0300 | 0x0302 | SMB_311)
}

// AES-128-GCM and AES-256-GCM.
pub fn is_gcm(cipher: u16) -> bool
    ensures { result ≡ is_gcm cipher }
{
    matches!(cipher, 2 | 4)
}

// The size of a cipher key.
#[derive(Clone, Copy, Debug, PartialEq, Eq)]
pub enum KeySize {
    Bits128,
    Bits256,
}

impl KeySize {
    // 256 bits with AES-256-CCM and AES-256-GCM: on 3.1.1 alone.
    pub fn of(dialect: u16, cipher: u16) -> KeySize
        ensures { wide_in result ≡ is_wide dialect cipher }
    {
        match (dialect, cipher) {
            (SMB_311, 3 | 4) => KeySize::Bits256,
            _ => KeySize::Bits128,
        }
    }

    pub fn is_wide(self) -> bool
        ensures { result ≡ wide_in self }
    {
        self == KeySize::Bits256
    }

    // Numbers 35 and 40.
    pub fn key_bytes(self) -> usize
        ensures { result ≡ cipher_key_bytes (wide_in self) }
    {
        match self {
            KeySize::Bits128 => 16,
            KeySize::Bits256 => 32,
        }
    }

    // Number 40: two keys of 16 bytes, then two cipher keys.
    pub fn place_bytes(self) -> usize
        ensures { result ≡ place_bytes (wide_in self) }
    {
        match self {
            KeySize::Bits128 => 64,
            KeySize::Bits256 => 96,
        }
    }
}

// By the flag of a record.
impl From<bool> for KeySize {
    ghost from_gives = { λ wide size. wide_in size ≡ wide };

    fn from(wide: bool) -> KeySize {
        if wide {
            KeySize::Bits256
        } else {
            KeySize::Bits128
        }
    }
}
