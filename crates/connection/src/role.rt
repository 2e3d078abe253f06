// The two ends of a connection.
ghost use Rattle.std.specs.Prelude.{◌≡◌};
ghost use Rattle.protocol.specs.Connection.{other};
ghost use Rattle.connection.specs.Reading.{role_in, role_of};

// As C hands them over.
pub const CLIENT: u8 = 0;

pub const SERVER: u8 = 1;

#[derive(Clone, Copy, Debug, PartialEq, Eq)]
pub enum Role {
    Client,
    Server,
}

impl Role {
    pub fn other(self) -> Role
        ensures { role_in result ≡ other (role_in self) }
    {
        match self {
            Role::Client => Role::Server,
            Role::Server => Role::Client,
        }
    }
}

// Any number but that of the client is a server's: one above 1 agrees on nothing.
impl From<u8> for Role {
    ghost from_gives = { λ number role. role_in role ≡ role_of number };

    fn from(number: u8) -> Role {
        if number == CLIENT {
            Role::Client
        } else {
            Role::Server
        }
    }
}

impl From<Role> for u8 {
    ghost from_gives = { λ role number. role_of number ≡ role_in role };

    fn from(role: Role) -> u8 {
        match role {
            Role::Client => CLIENT,
            Role::Server => SERVER,
        }
    }
}
