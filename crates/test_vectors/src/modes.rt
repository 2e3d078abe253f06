// SP 800-38A, SP 800-38C and SP 800-38D, under keys of both sizes. Each line of the latter two gives: the ciphertext and the tag; 0 and the
// ciphertext, from opening with a tag that is wrong in its last bit; 1 and the plaintext, from opening with the tag.
ghost use Rattle.std.specs.Prelude.{◌≤◌, ◌<◌, true, ◌≡◌, length, get_or, set};
ghost use Rattle.std.specs.Int.Bits.{bit_xor};
ghost use Rattle.aes.specs.KeySizes.{is_key_length};

use aes::Cipher;
use std::io;
use test_lines::{Hex, Word, Words};

// The tag with its last bit changed.
fn damaged(tag: [u8; 16]) -> [u8; 16]
    ensures { result ≡ set tag 15 (bit_xor (get_or tag 15 0) 1) }
{
    let mut t = tag;
    t[15] ^= 1;
    t
}

// ctr KEY PREFIX FIRST TEXT: the text, enciphered. FIRST is the number in the first counter block.
pub fn ctr(rt: &HostRuntime, words: &mut Words<'_>) -> io::Result<()> {
    let word: Word<32> = words.word();
    let prefix: Word<12> = words.word();
    let first = (words.number() % 4294966784) as u32;
    let mut text: Word<256> = words.word();
    let key = word.as_slice();
    if aes::is_key_length(key.len()) {
        let len = text.len;
        let message = &mut text.bytes[..len];
        ctr_sized(key, prefix.bytes, first, message);
        print!(rt; "{}", Hex(message))?;
    }
    println!(rt)
}

fn ctr_sized(key: &[u8], prefix: [u8; 12], first: u32, message: &mut [u8])
    requires { (is_key_length (length key.now) ≡ true) × (length message.old ≤ 256) × (first < 4294966784) }
{
    ctr::apply(&Cipher::new(key), prefix, first, message);
}

// ccm KEY NONCE AAD TEXT.
pub fn ccm(rt: &HostRuntime, words: &mut Words<'_>) -> io::Result<()> {
    let word: Word<32> = words.word();
    let nonce: Word<11> = words.word();
    let aad: Word<32> = words.word();
    let mut text: Word<256> = words.word();
    let key = word.as_slice();
    if aes::is_key_length(key.len()) {
        let len = text.len;
        ccm_there_and_back(rt, key, nonce.bytes, aad.bytes, &mut text.bytes[..len])?;
    }
    println!(rt)
}

// The two modes take nonces and further data of other types, and ask other lengths of them: a rule for both would be longer than either.
fn ccm_there_and_back(
    rt: &HostRuntime,
    key: &[u8],
    nonce: [u8; 11],
    aad: [u8; 32],
    message: &mut [u8],
) -> io::Result<()>
    requires { (is_key_length (length key.now) ≡ true) × (length message.old ≤ 256) }
{
    let tag = ccm::seal(key, nonce, aad, message);
    print!(rt; "{} {}", Hex(message), Hex(&tag))?;
    let wrong = ccm::open(key, nonce, aad, damaged(tag), message);
    print!(rt; " {} {}", u8::from(wrong), Hex(message))?;
    let right = ccm::open(key, nonce, aad, tag, message);
    print!(rt; " {} {}", u8::from(right), Hex(message))
}

// gcm KEY NONCE AAD TEXT.
pub fn gcm(rt: &HostRuntime, words: &mut Words<'_>) -> io::Result<()> {
    let word: Word<32> = words.word();
    let nonce: Word<12> = words.word();
    let aad: Word<128> = words.word();
    let mut text: Word<256> = words.word();
    let key = word.as_slice();
    if aes::is_key_length(key.len()) {
        let len = text.len;
        gcm_there_and_back(rt, key, nonce.bytes, aad.as_slice(), &mut text.bytes[..len])?;
    }
    println!(rt)
}

fn gcm_there_and_back(
    rt: &HostRuntime,
    key: &[u8],
    nonce: [u8; 12],
    aad: &[u8],
    message: &mut [u8],
) -> io::Result<()>
    requires { (is_key_length (length key.now) ≡ true) × (length aad.now ≤ 128) × (length message.old ≤ 256) }
{
    let tag = gcm::seal(key, nonce, aad, message);
    print!(rt; "{} {}", Hex(message), Hex(&tag))?;
    let wrong = gcm::open(key, nonce, aad, damaged(tag), message);
    print!(rt; " {} {}", u8::from(wrong), Hex(message))?;
    let right = gcm::open(key, nonce, aad, tag, message);
    print!(rt; " {} {}", u8::from(right), Hex(message))
}
