// FIPS 180-4, FIPS 198-1 and SP 800-108.
ghost use Rattle.std.specs.Prelude.{◌≤◌};

use sha256::Sha256;
use sha512::Sha512;
use std::io;
use test_lines::{Hex, Word, Words};

// sha256 MESSAGE: its digest.
pub fn sha256(rt: &HostRuntime, words: &mut Words<'_>) -> io::Result<()> {
    let message: Word<256> = words.word();
    let digest = sha256::hash(message.as_slice());
    println!(rt; "{}", Hex(&digest))
}

// sha512 MESSAGE: its digest.
pub fn sha512(rt: &HostRuntime, words: &mut Words<'_>) -> io::Result<()> {
    let message: Word<256> = words.word();
    let digest = sha512::hash(message.as_slice());
    println!(rt; "{}", Hex(&digest))
}

// The length of the piece after one of n bytes, where `left` bytes are left: 1, 8, 15, .. below 997, and over again; 0 at the end.
fn next_piece(n: usize, left: usize) -> usize
    ensures { (result ≤ 997) × (result ≤ left) }
{
    (n % 990 + 7).min(left)
}

// A million times the byte `a`, taken in by pieces.
fn by_pieces<H, U: Fn(H, &[u8]) -> H>(start: H, update: U) -> H
    requires { U.IsAlwaysCallable update }
{
    let a = [b'a'; 997];
    let mut running = start;
    let mut left = 1000000;
    let mut n = 1;
    while 0 < n {
        running = update(running, &a[..n]);
        left -= n;
        n = next_piece(n, left);
    }
    running
}

// sha256-pieces: the digest of a million times the byte `a`, taken in by pieces.
pub fn sha256_pieces(rt: &HostRuntime) -> io::Result<()> {
    let digest = by_pieces(Sha256::new(), |running, piece| running.update(piece)).finish();
    println!(rt; "{}", Hex(&digest))
}

// sha512-pieces: the digest of a million times the byte `a`, taken in by pieces.
pub fn sha512_pieces(rt: &HostRuntime) -> io::Result<()> {
    let digest = by_pieces(Sha512::new(), |running, piece| running.update(piece)).finish();
    println!(rt; "{}", Hex(&digest))
}

// hmac KEY MESSAGE COUNT: the first COUNT bytes of the code.
pub fn hmac(rt: &HostRuntime, words: &mut Words<'_>) -> io::Result<()> {
    let key: Word<256> = words.word();
    let message: Word<256> = words.word();
    let count: Word<1> = words.word();
    let code = hmac::hmac(key.as_slice(), message.as_slice());
    let n = usize::from(count.bytes[0]).min(code.len());
    println!(rt; "{}", Hex(&code[..n]))
}

// kdf KEY LABEL CONTEXT: the 16 bytes derived.
pub fn kdf(rt: &HostRuntime, words: &mut Words<'_>) -> io::Result<()> {
    let key: Word<64> = words.word();
    let label: Word<64> = words.word();
    let context: Word<64> = words.word();
    let derived = kdf::derive::<16>(key.as_slice(), label.as_slice(), context.as_slice());
    println!(rt; "{}", Hex(&derived))
}

// kdf-256 KEY LABEL CONTEXT: the 32 bytes derived.
pub fn kdf_256(rt: &HostRuntime, words: &mut Words<'_>) -> io::Result<()> {
    let key: Word<64> = words.word();
    let label: Word<64> = words.word();
    let context: Word<64> = words.word();
    let derived = kdf::derive::<32>(key.as_slice(), label.as_slice(), context.as_slice());
    println!(rt; "{}", Hex(&derived))
}
