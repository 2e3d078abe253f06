// smb3seal for C: each export has the name and the contract of a function of smb3seal, and calls it. An archive has the exports of its root
// crate alone, and a library has none.
#![tactic(auto)]

mod pieces;
mod sign_pieces;
mod table;
mod traces;

ghost use Rattle.protocol.specs.Preauth.{negotiate_message, setup_request, setup_response};
ghost use Rattle.protocol.specs.Calls.{derivation, folding, sealing_under, opening_under, only_message, message_and_counter, only_chain, only_keys};
ghost use Rattle.protocol.specs.Calls.{signing_under, verifying_under};
ghost use Rattle.protocol.specs.Contract.{Returns};
ghost use Rattle.connection.specs.Reading.{under_key};
ghost use Rattle.smb3seal.specs.Exports.{Reports};

// Writes the four keys of a session.
#[unsafe(no_mangle)]
pub extern "C" fn smb3seal_derive(
    dialect: u16,
    cipher: u16,
    material: &[u8],
    chain: &[u8],
    keys: &mut [u8],
) -> u32
    ensures { Returns (derivation dialect cipher chain.now material.now) (only_keys keys.old) result (only_keys keys.new) }
{
    smb3seal::smb3seal_derive(dialect, cipher, material, chain, keys)
}

// Folds a negotiate message or a session setup request.
#[unsafe(no_mangle)]
pub extern "C" fn smb3seal_fold(chain: &mut [u8], message: &[u8]) -> u32
    ensures { Returns (folding negotiate_message message.now) (only_chain chain.old) result (only_chain chain.new)
        × Returns (folding setup_request message.now) (only_chain chain.old) result (only_chain chain.new) }
{
    smb3seal::smb3seal_fold(chain, message)
}

// Folds a session setup response, if its status asks for that.
#[unsafe(no_mangle)]
pub extern "C" fn smb3seal_fold_response(chain: &mut [u8], message: &[u8], folded: &mut u32) -> u32
    ensures { Reports (folding setup_response message.now) (only_chain chain.old) result (only_chain chain.new) folded.old folded.new }
{
    smb3seal::smb3seal_fold_response(chain, message, folded)
}

// Seals the message in place.
#[unsafe(no_mangle)]
pub extern "C" fn smb3seal_seal(
    role: u32,
    dialect: u16,
    encryption: u32,
    cipher: u16,
    key: &[u8],
    id: u64,
    counter: &mut u64,
    message: &mut [u8],
    headers: &mut u64,
) -> u32
    ensures { Reports (sealing_under (under_key role dialect encryption cipher) key.now id) (message_and_counter message.old counter.old) result (message_and_counter message.new counter.new) headers.old headers.new }
{
    smb3seal::smb3seal_seal(
        role, dialect, encryption, cipher, key, id, counter, message, headers,
    )
}

// Opens the message in place.
#[unsafe(no_mangle)]
pub extern "C" fn smb3seal_open(
    role: u32,
    dialect: u16,
    encryption: u32,
    cipher: u16,
    key: &[u8],
    id: u64,
    message: &mut [u8],
    headers: &mut u64,
) -> u32
    ensures { Reports (opening_under (under_key role dialect encryption cipher) key.now id) (only_message message.old) result (only_message message.new) headers.old headers.new }
{
    smb3seal::smb3seal_open(role, dialect, encryption, cipher, key, id, message, headers)
}

// Signs the message in place.
#[unsafe(no_mangle)]
pub extern "C" fn smb3seal_sign(key: &[u8], message: &mut [u8]) -> u32
    ensures { Returns (signing_under key.now) (only_message message.old) result (only_message message.new) }
{
    smb3seal::smb3seal_sign(key, message)
}

// Verifies the message, which stays as it is.
#[unsafe(no_mangle)]
pub extern "C" fn smb3seal_verify(key: &[u8], message: &[u8]) -> u32
    ensures { Returns (verifying_under key.now) (only_message message.now) result (only_message message.now) }
{
    smb3seal::smb3seal_verify(key, message)
}
