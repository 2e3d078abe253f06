// The library's functions. Numbers are byte strings with the highest byte first.
use std::io;
use test_lines::{Hex, Word, Words};

// A number's lowest 16 bits.
fn low_16(n: u64) -> u16 {
    (n % 65536) as u16
}

// fold CHAIN MESSAGE: the number, and the chain value.
pub fn fold(rt: &HostRuntime, words: &mut Words<'_>) -> io::Result<()> {
    let mut chain: Word<64> = words.word();
    let message: Word<1024> = words.word();
    let r = smb3seal::smb3seal_fold(&mut chain.bytes, message.as_slice());
    println!(rt; "{r} {}", Hex(&chain.bytes))
}

// fold-response CHAIN MESSAGE: the number, whether it was folded, and the chain value.
pub fn fold_response(rt: &HostRuntime, words: &mut Words<'_>) -> io::Result<()> {
    let mut chain: Word<64> = words.word();
    let message: Word<1024> = words.word();
    let mut folded = 7;
    let r = smb3seal::smb3seal_fold_response(&mut chain.bytes, message.as_slice(), &mut folded);
    println!(rt; "{r} {folded} {}", Hex(&chain.bytes))
}

// derive DIALECT CIPHER MATERIAL CHAIN: the number, and the first `count` bytes of the place for the keys.
pub fn derive(rt: &HostRuntime, words: &mut Words<'_>, count: usize) -> io::Result<()> {
    let dialect = low_16(words.number());
    let cipher = low_16(words.number());
    let material: Word<64> = words.word();
    let chain: Word<64> = words.word();
    let mut keys = [0u8; 64];
    let r = smb3seal::smb3seal_derive(
        dialect,
        cipher,
        material.as_slice(),
        chain.as_slice(),
        &mut keys,
    );
    let n = count.min(keys.len());
    println!(rt; "{r} {}", Hex(&keys[..n]))
}

// What sealing and opening are lent besides the message.
#[derive(Clone, Copy)]
struct Lent {
    role: u32,
    dialect: u16,
    cipher: u16,
    key: [u8; 16],
    id: u64,
}

// ROLE DIALECT CIPHER KEY ID.
fn read_lent(words: &mut Words<'_>) -> Lent {
    let role = u32::from(low_16(words.number()));
    let dialect = low_16(words.number());
    let cipher = low_16(words.number());
    let word: Word<16> = words.word();
    let key = word.bytes;
    let id = words.number();
    Lent {
        role,
        dialect,
        cipher,
        key,
        id,
    }
}

// open ROLE DIALECT CIPHER KEY ID MESSAGE: the number, the place for the headers (which held 7), and the message.
pub fn open(rt: &HostRuntime, words: &mut Words<'_>) -> io::Result<()> {
    let l = read_lent(words);
    let mut word: Word<1024> = words.word();
    let len = word.len;
    let message = &mut word.bytes[..len];
    let mut headers = 7;
    let r = smb3seal::smb3seal_open(
        l.role,
        l.dialect,
        1,
        l.cipher,
        &l.key,
        l.id,
        message,
        &mut headers,
    );
    println!(rt; "{r} {headers} {}", Hex(message))
}

// seal ROLE DIALECT CIPHER KEY ID COUNTER MESSAGE: the number and the counter; where `whole`, also the headers and the message.
pub fn seal(rt: &HostRuntime, words: &mut Words<'_>, whole: bool) -> io::Result<()> {
    let l = read_lent(words);
    let mut counter = words.number();
    let mut word: Word<1024> = words.word();
    let len = word.len;
    let message = &mut word.bytes[..len];
    let mut headers = 7;
    let r = smb3seal::smb3seal_seal(
        l.role,
        l.dialect,
        1,
        l.cipher,
        &l.key,
        l.id,
        &mut counter,
        message,
        &mut headers,
    );
    print!(rt; "{r} {counter:016x}")?;
    if whole {
        print!(rt; " {headers} {}", Hex(message))?;
    }
    println!(rt)
}

// sign KEY MESSAGE: the number, and the message.
pub fn sign(rt: &HostRuntime, words: &mut Words<'_>) -> io::Result<()> {
    let key: Word<16> = words.word();
    let mut word: Word<1024> = words.word();
    let len = word.len;
    let message = &mut word.bytes[..len];
    let r = smb3seal::smb3seal_sign(key.as_slice(), message);
    println!(rt; "{r} {}", Hex(message))
}

// verify KEY MESSAGE: the number.
pub fn verify(rt: &HostRuntime, words: &mut Words<'_>) -> io::Result<()> {
    let key: Word<16> = words.word();
    let message: Word<1024> = words.word();
    let r = smb3seal::smb3seal_verify(key.as_slice(), message.as_slice());
    println!(rt; "{r}")
}
