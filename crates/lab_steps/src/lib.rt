// What a record of each kind does in the lab (RULES 16).
#![tactic(auto)]

ghost use Rattle.std.specs.Prelude.{◌≡◌, ◌<◌, ◌≤◌, length};
ghost use Rattle.protocol.specs.Answer.{answer_number};
ghost use Rattle.protocol.specs.Preauth.{negotiate_message};
ghost use Rattle.protocol.specs.Calls.{folding, opening, adding, only_chain, only_table, message_and_table, answer, left};
ghost use Rattle.protocol.specs.Suite.{suite};
ghost use Rattle.lab_rules.specs.Steps.{Steps, setup_kind, receiving, lab_session, with_session, negotiated, joined};
ghost use Rattle.lab_state.specs.Reading.{state_of};

use answer::number;
use big_endian::number_at;
use lab_state::Lab;
use session_record::Adding;

// Kind 0: folded on the connection, and the session chain is the connection's.
fn negotiate(lab: &mut Lab, message: &[u8]) -> u32
    ensures { (result ≡ answer_number (answer suite (folding negotiate_message message.now) (only_chain lab.old.connection)))
        × (state_of lab.new ≡ negotiated (left suite (folding negotiate_message message.now) (only_chain lab.old.connection)).chain (state_of lab.old)) }
{
    let folded = preauth::fold(&mut lab.connection, message);
    lab.session = lab.connection;
    number(folded)
}

// Kind 1: a request, or a response, by its direction, folded on the session chain.
fn setup(lab: &mut Lab, from_server: bool, message: &[u8]) -> u32
    ensures { (result ≡ answer_number (answer suite (folding (setup_kind from_server) message.now) (only_chain lab.old.session)))
        × (state_of lab.new ≡ with_session (left suite (folding (setup_kind from_server) message.now) (only_chain lab.old.session)).chain (state_of lab.old)) }
{
    if from_server {
        return number(preauth::fold_response(&mut lab.session, message));
    }
    number(preauth::fold(&mut lab.session, message))
}

// Kind 2: opened by its receiver.
fn opened(lab: &Lab, from_server: bool, message: &mut [u8]) -> u32
    ensures { (result ≡ answer_number (answer suite (opening (receiving from_server (state_of lab.now))) (message_and_table message.old (state_of lab.now).table)))
        × (message.new ≡ (left suite (opening (receiving from_server (state_of lab.now))) (message_and_table message.old (state_of lab.now).table)).message) }
{
    let receiver = lab.receiver(from_server);
    number(lab.table.open(receiver, message))
}

// Kind 3: a plain session from the session chain, of an 8-byte id, the high byte first, and a 16-byte key. Then the session chain is the
// connection's.
fn added(lab: &mut Lab, payload: &[u8]) -> u32
    ensures stays { length payload.now < 24 → lab.new ≡ lab.old }
    ensures joins { 24 ≤ length payload.now → (result ≡ answer_number (answer suite (adding (lab_session payload.now (state_of lab.old))) (only_table (state_of lab.old).table)))
        × (state_of lab.new ≡ joined (left suite (adding (lab_session payload.now (state_of lab.old))) (only_table (state_of lab.old).table)).table (state_of lab.old)) }
{
    if payload.len() < 24 {
        return 36;
    }
    let plain = Adding {
        dialect: lab.dialect,
        cipher: lab.cipher,
        id: number_at::<8>(payload, 0),
        guest: false,
        anonymous: false,
    };
    let chain = lab.session;
    let added = lab.table.add(plain, &payload[8..24], &chain);
    lab.session = lab.connection;
    number(added)
}

// A record of a kind and with a payload of a length that the reader reads: its answer number, which a line of the replay has. A shorter one
// of kind 3, which no reader hands on, leaves the lab as it was.
pub fn step(lab: &mut Lab, kind: u8, from_server: bool, payload: &mut [u8]) -> u32
    ensures stays { 3 ≤ kind → length payload.old < 24 → lab.new ≡ lab.old }
    ensures steps { (3 ≤ kind → 24 ≤ length payload.old) → Steps kind from_server payload.old payload.new (state_of lab.old) result (state_of lab.new) }
{
    // not a match: of its last arm a proof knows only that no number was named
    if kind == 0 {
        return negotiate(lab, payload);
    }
    if kind == 1 {
        return setup(lab, from_server, payload);
    }
    if kind == 2 {
        return opened(lab, from_server, payload);
    }
    added(lab, payload)
}
