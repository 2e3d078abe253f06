// What the walk is told of a message: whether it comes from the server is a matter of the role that seals or opens it.
#![tactic(auto)]

ghost use Rattle.std.specs.Prelude.{◌≡◌};
ghost use Rattle.protocol.specs.Connection.{other};
ghost use Rattle.protocol.specs.Calls.{sent_by};
ghost use Rattle.connection.specs.Reading.{role_in};
ghost use Rattle.compound.specs.Reading.{envelope_of};

use compound::Envelope;
use connection::Role;

// Of a message that this end seals.
pub fn sent(role: Role, id: u64) -> Envelope
    ensures { envelope_of result ≡ sent_by (role_in role) id }
{
    Envelope {
        id,
        from_server: role == Role::Server,
    }
}

// Of a message that this end opens: the other one sealed it.
pub fn received(role: Role, id: u64) -> Envelope
    ensures { envelope_of result ≡ sent_by (other (role_in role)) id }
{
    sent(role.other(), id)
}
