// The part that ciphers: opening and sealing once the tests before it have passed.
ghost use Rattle.std.specs.Prelude.{◌≡◌, ◌≤◌, length};
ghost use Rattle.protocol.specs.Connection.{longest_message};
ghost use Rattle.protocol.specs.TransformHeader.{header_of, inner, transform_message};
ghost use Rattle.protocol.specs.Compound.{walk};
ghost use Rattle.protocol.specs.Transform.{sealed_under};
ghost use Rattle.protocol.specs.Suite.{ciphers};
ghost use Rattle.answer.specs.Reading.{answer_of};
ghost use Rattle.compound.specs.Reading.{envelope_of};
ghost use Rattle.transform_header.specs.Reading.{header_from};
ghost use Rattle.transform.specs.Steps.{Sized, size_then_walk, OpensBody, OpensMessage};

use crate::cipher::Keyed;
use answer::{Answer, Refusal, refuse};
use compound::Envelope;
use runs::copy;
use transform_header::TransformHeader;

// 10, then the walk.
fn size_then_walk(h: TransformHeader, e: Envelope, text: &[u8]) -> Answer
    ensures { answer_of result ≡ size_then_walk (header_from h) (envelope_of e) (length text.now) text.now }
{
    refuse(h.size as usize != text.len(), Refusal::BadSize)?;
    compound::walk_headers(text, e)
}

// Opens the text in place, from the tag on. After a refusal the key stream is applied again, which turns it back.
fn open_body(keyed: Keyed, h: TransformHeader, e: Envelope, text: &mut [u8]) -> Answer
    requires { length text.old ≤ longest_message }
    ensures { OpensBody keyed.entry.cipher keyed.entry.key.now (header_from h) (envelope_of e) text.old text.new (answer_of result) }
{
    if !keyed.open(h.nonce, h.authenticated, h.signature, text) {
        return Err(Refusal::BadTag);
    }
    let out = size_then_walk(h, e, text);
    if out.is_err() {
        keyed.apply(h.nonce, text);
    }
    out
}

// Opens the message in place, from the tag on, where h is its header.
pub fn open_message(keyed: Keyed, h: TransformHeader, e: Envelope, m: &mut [u8]) -> Answer
    requires { (header_from h ≡ header_of m.old) × Sized m.old }
    ensures { OpensMessage keyed.entry.cipher keyed.entry.key.now (envelope_of e) m.old m.new (answer_of result) }
{
    open_body(keyed, h, e, &mut m[52..])
}

// The walk over the inner message.
pub fn walk_inner(m: &[u8], e: Envelope) -> Answer
    requires { Sized m.now }
    ensures { answer_of result ≡ walk (inner m.now) (envelope_of e) }
{
    compound::walk_headers(&m[52..], e)
}

// The 52 bytes of the header.
fn write_header(m: &mut [u8], tag: [u8; 16], aad: [u8; 32])
    requires { Sized m.old }
    ensures { m.new ≡ transform_message tag aad (inner m.old) }
{
    copy(m, 0, b"\xFDSMB");
    copy(m, 4, &tag);
    copy(m, 20, &aad);
}

// Seals the message in place once all tests have passed.
pub fn seal_message(keyed: Keyed, counter: u64, id: u64, m: &mut [u8])
    requires { Sized m.old }
    ensures { m.new ≡ sealed_under ciphers keyed.entry.cipher keyed.entry.key.now counter id (inner m.old) }
{
    let size = (m.len() - 52) as u32;
    let nonce = transform_header::nonce(counter);
    let aad = transform_header::authenticated_bytes(counter, size, id);
    let tag = keyed.seal(nonce, aad, &mut m[52..]);
    write_header(m, tag, aad);
}
