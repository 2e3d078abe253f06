// The lab that a trace is replayed in (RULES 16): two chains and a table of sixteen sessions.
#![tactic(auto)]

ghost use Rattle.std.specs.Prelude.{◌≡◌};
ghost use Rattle.connection.specs.Reading.{connection_of};
ghost use Rattle.lab_rules.specs.Steps.{fresh_state, receiving};
ghost use Rattle.lab_state.specs.Reading.{state_of};

use connection::Connection;
use table_by_value::Table;

// The file head's dialect and cipher, the connection's chain, the session chain, and the table.
#[derive(Clone, Copy)]
pub struct Lab {
    pub dialect: u16,
    pub cipher: u16,
    pub connection: [u8; 64],
    pub session: [u8; 64],
    pub table: Table,
}

impl Lab {
    // Fresh chains, and no session.
    pub fn new(dialect: u16, cipher: u16) -> Lab
        ensures { state_of result ≡ fresh_state dialect cipher }
    {
        let zeros = [0u8; 64];
        let none = Table::empty();
        Lab {
            dialect,
            cipher,
            connection: zeros,
            session: zeros,
            table: none,
        }
    }

    // The connection of the receiver, which is the client where the message comes from the server: encryption on, no constraint.
    pub fn receiver(&self, from_server: bool) -> Connection
        ensures { connection_of result ≡ receiving from_server (state_of self.now) }
    {
        let role = if from_server {
            connection::CLIENT
        } else {
            connection::SERVER
        };
        Connection {
            dialect: self.dialect,
            cipher: self.cipher,
            role,
            encryption: 1,
            constrained: 0,
            spare: 0,
        }
    }
}
