// One session record: what there is to find out about it and to change of it (RULES 10). The calls that seal, open and add with it are in
// `session_calls`.
#![tactic(auto)]

mod lines;
mod new;

ghost use Rattle.std.specs.Prelude.{◌≡◌, true, false, length};
ghost use Rattle.protocol.specs.SessionTable.{sealing_key, opening_key};
ghost use Rattle.dialects.specs.Reading.{wide_in};
ghost use Rattle.connection.specs.Reading.{flag, role_in, role_of};
ghost use Rattle.session_record.specs.Reading.{free, is_wanted, key_bytes, session_of, stepped};
ghost use Rattle.session_record.specs.Clauses.{named_id};
ghost use Rattle.session_record.specs.Adds.{adding_for};

use connection::{Connection, KeySize, Role};
pub use lines::{place_tests, record_tests};
pub use new::fresh;

// struct smb3seal_session: any bytes are a record, so that its flags stay bytes, 0 for no and anything else for yes. Where `wide` is 0 a cipher
// key is the first 16 of its bytes.
#[repr(C)]
#[derive(Clone, Copy)]
pub struct Session {
    pub id: u64,
    pub counter: u64,
    pub signing: [u8; 16],
    pub application: [u8; 16],
    pub client_to_server: [u8; 32],
    pub server_to_client: [u8; 32],
    pub used: u8,
    pub guest: u8,
    pub anonymous: u8,
    pub wide: u8,
    pub spare: [u8; 4],
}

impl Session {
    // A free record, all zero.
    pub fn vacant() -> Session
        ensures { result ≡ free }
    {
        Session {
            id: 0,
            counter: 0,
            signing: [0; 16],
            application: [0; 16],
            client_to_server: [0; 32],
            server_to_client: [0; 32],
            used: 0,
            guest: 0,
            anonymous: 0,
            wide: 0,
            spare: [0; 4],
        }
    }

    // What a lookup wants.
    pub fn is_session(&self, id: u64) -> bool
        ensures { result ≡ is_wanted true id self.now }
    {
        (self.used != 0) & (self.id == id)
    }

    pub fn is_free(&self) -> bool
        ensures { result ≡ is_wanted false 0 self.now }
    {
        self.used == 0
    }

    pub fn key_size(&self) -> KeySize
        ensures { wide_in result ≡ flag self.now.wide }
    {
        KeySize::from(self.wide != 0)
    }

    // The counter step: up by that many, and unchanged where it would pass the last. No other byte of the record changes.
    pub fn stepped(self, by: u64) -> Session
        ensures { result ≡ stepped by self }
    {
        if connection::last_counter() - self.counter < by {
            return self;
        }
        Session {
            counter: self.counter + by,
            ..self
        }
    }

    // A client seals with the first cipher key, a server with the second.
    pub fn sealing_key(&self, role: Role) -> &[u8]
        ensures key { result.now ≡ sealing_key (role_in role) (session_of self.now).keys }
        ensures size { length result.now ≡ key_bytes self.now }
    {
        let bytes = self.key_size().key_bytes();
        match role {
            Role::Client => &self.client_to_server[..bytes],
            Role::Server => &self.server_to_client[..bytes],
        }
    }

    // And opens with the other.
    pub fn opening_key(&self, role: Role) -> &[u8]
        ensures key { result.now ≡ opening_key (role_in role) (session_of self.now).keys }
        ensures size { length result.now ≡ key_bytes self.now }
    {
        self.sealing_key(role.other())
    }
}

// The key to seal with, of the role that a number stands for: any but a client's is a server's.
pub fn sealing_key(s: &Session, role: u8) -> &[u8]
    ensures key { result.now ≡ sealing_key (role_of role) (session_of s.now).keys }
    ensures size { length result.now ≡ key_bytes s.now }
{
    s.sealing_key(Role::from(role))
}

// And the key to open with.
pub fn opening_key(s: &Session, role: u8) -> &[u8]
    ensures key { result.now ≡ opening_key (role_of role) (session_of s.now).keys }
    ensures size { length result.now ≡ key_bytes s.now }
{
    s.opening_key(Role::from(role))
}

// What adding takes beside the key material and the chain value.
#[derive(Clone, Copy)]
pub struct Adding {
    pub dialect: u16,
    pub cipher: u16,
    pub id: u64,
    pub guest: bool,
    pub anonymous: bool,
}

impl Adding {
    // By the numbers that C hands over.
    pub fn new(c: Connection, id: u64, guest: u32, anonymous: u32) -> Adding
        ensures { result ≡ adding_for c id guest anonymous }
    {
        Adding {
            dialect: c.dialect,
            cipher: c.cipher,
            id,
            guest: guest != 0,
            anonymous: anonymous != 0,
        }
    }
}

// The session that a message names, 0 where it is too short for a header.
pub fn session_id(message: &[u8]) -> u64
    ensures { result ≡ named_id message.now }
{
    match transform_header::read_header(message) {
        Some(h) => h.session_id,
        None => 0,
    }
}
