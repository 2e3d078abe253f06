// SP 800-38B and RFC 4493.
ghost use Rattle.std.specs.Prelude.{◌<◌};

use aes::Cipher;
use cmac::Mac;
use std::io;
use test_lines::{Hex, Word, Words};

// cmac KEY MESSAGE: its code.
pub fn cmac(rt: &HostRuntime, words: &mut Words<'_>) -> io::Result<()> {
    let key: Word<16> = words.word();
    let message: Word<256> = words.word();
    let code = cmac::cmac(&Cipher::new(&key.bytes), message.as_slice());
    println!(rt; "{}", Hex(&code))
}

// The code of a message that is taken in by pieces of n bytes.
fn by_pieces(cipher: &Cipher, message: &[u8], n: usize) -> [u8; 16]
    requires { 0 < n }
{
    let mut running = Mac::new();
    for piece in message.chunks(n) {
        running = running.update(cipher, piece);
    }
    running.finish(cipher)
}

// cmac-pieces KEY MESSAGE COUNT: its code, taken in by pieces of COUNT + 1 bytes.
pub fn cmac_pieces(rt: &HostRuntime, words: &mut Words<'_>) -> io::Result<()> {
    let key: Word<16> = words.word();
    let message: Word<256> = words.word();
    let count: Word<1> = words.word();
    let n = usize::from(count.bytes[0]) + 1;
    let code = by_pieces(&Cipher::new(&key.bytes), message.as_slice(), n);
    println!(rt; "{}", Hex(&code))
}
