// The transform header (RULES 4; MS-SMB2 2.2.41): read once into a struct, and the fields that sealing writes.
#![tactic(auto)]

ghost use Rattle.std.specs.Prelude.{◌≡◌};
ghost use Rattle.protocol.specs.TransformHeader.{nonce_of, authenticated};
ghost use Rattle.transform_header.specs.Reading.{ReadFrom};

use arrays::bytes_at;
use little_endian::{number_at, to_bytes};
use runs::copy;

#[derive(Clone, Copy)]
pub struct TransformHeader {
    pub begins: bool,
    pub signature: [u8; 16],
    pub nonce: [u8; 16],
    pub nonce_end: u32,
    pub authenticated: [u8; 32],
    pub size: u32,
    pub flags: u16,
    pub session_id: u64,
}

// The header of the message, if there is room for one.
pub fn read_header(m: &[u8]) -> Option<TransformHeader>
    ensures { ReadFrom m.now result }
{
    if m.len() < 52 {
        return None;
    }
    Some(TransformHeader {
        begins: protocol_id::begins(m, 0, 0xFD),
        signature: bytes_at(m, 4),
        nonce: bytes_at(m, 20),
        nonce_end: number_at::<4>(m, 32) as u32,
        authenticated: bytes_at(m, 20),
        size: number_at::<4>(m, 36) as u32,
        flags: number_at::<2>(m, 42) as u16,
        session_id: number_at::<8>(m, 44),
    })
}

// The Nonce field that sealing writes.
pub fn nonce(counter: u64) -> [u8; 16]
    ensures { result ≡ nonce_of counter }
{
    let mut r = [0u8; 16];
    copy(&mut r, 0, &to_bytes::<8>(counter));
    r
}

// Bytes 20..52 of the header that sealing writes.
pub fn authenticated_bytes(counter: u64, size: u32, id: u64) -> [u8; 32]
    ensures { result ≡ authenticated counter size id }
{
    let mut r = [0u8; 32];
    copy(&mut r, 0, &to_bytes::<8>(counter));
    copy(&mut r, 16, &to_bytes::<4>(u64::from(size)));
    r[22] = 1;
    copy(&mut r, 24, &to_bytes::<8>(id));
    r
}
