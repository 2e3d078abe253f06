// The calls of the interface: numbers and byte buffers. What each answers and leaves behind is said by include/smb3seal.h in words; smb3seal_c
// hands them to C.
#![tactic(auto)]

mod pieces;
mod sign_pieces;
mod table;
mod traces;

ghost use Rattle.protocol.specs.Preauth.{negotiate_message, setup_request, setup_response};
ghost use Rattle.protocol.specs.Calls.{derivation, folding, sealing_under, opening_under, only_message, message_and_counter, only_chain, only_keys};
ghost use Rattle.protocol.specs.Calls.{signing_under, verifying_under};
ghost use Rattle.protocol.specs.Contract.{Returns};
ghost use Rattle.connection.specs.Reading.{under_key};
ghost use Rattle.smb3seal.specs.Exports.{Reports};

use answer::{number, report};
use connection::Connection;
pub use pieces::{
    smb3seal_fold_begin, smb3seal_fold_finish, smb3seal_fold_piece, smb3seal_fold_response_finish,
};
pub use sign_pieces::{
    smb3seal_sign_begin, smb3seal_sign_finish, smb3seal_sign_piece, smb3seal_verify_finish,
};
pub use table::{
    smb3seal_table_add, smb3seal_table_find, smb3seal_table_open, smb3seal_table_remove,
    smb3seal_table_seal,
};
pub use traces::{
    smb3seal_trace_head, smb3seal_trace_read, smb3seal_trace_read_head, smb3seal_trace_record,
    smb3seal_trace_rescue,
};

// Writes the four keys of a session.
pub fn smb3seal_derive(
    dialect: u16,
    cipher: u16,
    material: &[u8],
    chain: &[u8],
    keys: &mut [u8],
) -> u32
    ensures { Returns (derivation dialect cipher chain.now material.now) (only_keys keys.old) result (only_keys keys.new) }
{
    number(keys::derive(dialect, cipher, material, chain, keys))
}

// Folds a negotiate message or a session setup request.
pub fn smb3seal_fold(chain: &mut [u8], message: &[u8]) -> u32
    ensures { Returns (folding negotiate_message message.now) (only_chain chain.old) result (only_chain chain.new)
        × Returns (folding setup_request message.now) (only_chain chain.old) result (only_chain chain.new) }
{
    number(preauth::fold(chain, message))
}

// Folds a session setup response, if its status asks for that.
pub fn smb3seal_fold_response(chain: &mut [u8], message: &[u8], folded: &mut u32) -> u32
    ensures { Reports (folding setup_response message.now) (only_chain chain.old) result (only_chain chain.new) folded.old folded.new }
{
    let answer = preauth::fold_response(chain, message);
    *folded = answer::mark_to(answer, *folded);
    number(answer)
}

// Seals the message in place.
pub fn smb3seal_seal(
    role: u32,
    dialect: u16,
    encryption: u32,
    cipher: u16,
    key: &[u8],
    id: u64,
    counter: &mut u64,
    message: &mut [u8],
    headers: &mut u64,
) -> u32
    ensures { Reports (sealing_under (under_key role dialect encryption cipher) key.now id) (message_and_counter message.old counter.old) result (message_and_counter message.new counter.new) headers.old headers.new }
{
    let c = Connection::under_key(role, dialect, encryption, cipher);
    let answer = transform::seal_under(c, key, id, counter, message);
    report(answer, headers)
}

// Opens the message in place.
pub fn smb3seal_open(
    role: u32,
    dialect: u16,
    encryption: u32,
    cipher: u16,
    key: &[u8],
    id: u64,
    message: &mut [u8],
    headers: &mut u64,
) -> u32
    ensures { Reports (opening_under (under_key role dialect encryption cipher) key.now id) (only_message message.old) result (only_message message.new) headers.old headers.new }
{
    let c = Connection::under_key(role, dialect, encryption, cipher);
    let answer = transform::open_under(c, key, id, message);
    report(answer, headers)
}

// Signs the message in place.
pub fn smb3seal_sign(key: &[u8], message: &mut [u8]) -> u32
    ensures { Returns (signing_under key.now) (only_message message.old) result (only_message message.new) }
{
    number(signing::sign(key, message))
}

// Verifies the message, which stays as it is.
pub fn smb3seal_verify(key: &[u8], message: &[u8]) -> u32
    ensures { Returns (verifying_under key.now) (only_message message.now) result (only_message message.now) }
{
    number(signing::verify(key, message))
}
