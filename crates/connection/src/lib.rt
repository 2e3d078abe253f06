// What a connection agreed on (RULES 1 and 3). Every function above takes it by value, and finds the limits and the numbers of dialects and
// ciphers here too.
#![tactic(auto)]

mod role;

ghost use Rattle.std.specs.Prelude.{◌≡◌};
ghost use Rattle.protocol.specs.Connection.{encrypts, cipher_used, uses_gcm, uses_wide};
ghost use Rattle.dialects.specs.Reading.{wide_in};
ghost use Rattle.connection.specs.Reading.{role_in, connection_of, under_key};

pub use dialects::{KeySize, SMB_311, is_gcm, known_dialect};
pub use limits::{fits, last_counter, longest_material, longest_message};
pub use role::{CLIENT, Role, SERVER};

// struct smb3seal_connection: any bytes are a connection, so that its fields stay numbers. A role above 1 or a spare byte other than 0 means that
// nothing was agreed.
#[repr(C)]
#[derive(Clone, Copy)]
pub struct Connection {
    pub dialect: u16,
    pub cipher: u16,
    pub role: u8,
    pub encryption: u8,
    pub constrained: u8,
    pub spare: u8,
}

impl Connection {
    // A connection by the numbers that a call under one given key takes.
    pub fn under_key(role: u32, dialect: u16, encryption: u32, cipher: u16) -> Connection
        ensures { connection_of result ≡ under_key role dialect encryption cipher }
    {
        Connection {
            dialect,
            cipher,
            role: u8::from(role != 0),
            encryption: u8::from((encryption != 0) & (role <= 1)),
            constrained: 0,
            spare: 0,
        }
    }

    pub fn role(self) -> Role
        ensures { role_in result ≡ (connection_of self).role }
    {
        Role::from(self.role)
    }

    // Number 1 is not given.
    pub fn encrypting(self) -> bool
        ensures { result ≡ encrypts (connection_of self) }
    {
        let named = !(self.dialect == SMB_311) | (self.cipher <= 4);
        let agreed = (self.encryption != 0) & (self.role <= 1) & (self.spare == 0);
        known_dialect(self.dialect) & agreed & !(self.cipher == 0) & named
    }

    // Below 3.1.1 always CCM.
    pub fn cipher_used(self) -> u16
        ensures { result ≡ cipher_used (connection_of self) }
    {
        if self.dialect == SMB_311 {
            self.cipher
        } else {
            1
        }
    }

    // Number 29 may be given.
    pub fn uses_gcm(self) -> bool
        ensures { result ≡ uses_gcm (connection_of self) }
    {
        is_gcm(self.cipher_used())
    }

    pub fn key_size(self) -> KeySize
        ensures { wide_in result ≡ uses_wide (connection_of self) }
    {
        KeySize::of(self.dialect, self.cipher)
    }
}
