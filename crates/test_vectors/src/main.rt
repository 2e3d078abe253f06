// Published vectors of the primitives: reads lines of operations from standard input and writes a line of results for each.
// The file `stdin` has the published inputs, and `stdout`, with which the output is compared, the published results.
#![tactic(auto)]

mod block_cipher;
mod codes;
mod hashes;
mod modes;
mod smb;

use io::{large_buffer, read_full};
use std::io::Result;
use std::str;
use test_lines::Words;

// The operation that a line names, on the words behind its name. A line of no known name has no result.
fn run(rt: &HostRuntime, name: &str, words: &mut Words<'_>) -> Result<()> {
    match name {
        "sha256" => hashes::sha256(rt, words),
        "sha512" => hashes::sha512(rt, words),
        "sha256-pieces" => hashes::sha256_pieces(rt),
        "sha512-pieces" => hashes::sha512_pieces(rt),
        "hmac" => hashes::hmac(rt, words),
        "kdf" => hashes::kdf(rt, words),
        "kdf-256" => hashes::kdf_256(rt, words),
        "expand" => block_cipher::expand(rt, words),
        "encrypt" => block_cipher::encrypt(rt, words),
        "ctr" => modes::ctr(rt, words),
        "ccm" => modes::ccm(rt, words),
        "gcm" => modes::gcm(rt, words),
        "cmac" => codes::cmac(rt, words),
        "cmac-pieces" => codes::cmac_pieces(rt, words),
        "fold" => smb::fold(rt, words),
        "fold-response" => smb::fold_response(rt, words),
        "derive" => smb::derive(rt, words, 64),
        "signing" => smb::derive(rt, words, 16),
        "open" => smb::open(rt, words),
        "seal" => smb::seal(rt, words, true),
        "seal-number" => smb::seal(rt, words, false),
        "sign" => smb::sign(rt, words),
        "verify" => smb::verify(rt, words),
        _ => Ok(()),
    }
}

// A name, a space, and more.
fn run_line(rt: &HostRuntime, line: &[u8]) -> Result<()> {
    let Some(space) = line.iter().position(|b| *b == b' ') else {
        return Ok(());
    };
    let at = space + 1;
    match str::from_utf8(&line[..space]) {
        Ok(name) if at < line.len() => run(rt, name, &mut Words { line, at }),
        _ => Ok(()),
    }
}

// What cannot be read or written is missing from the output, which is compared.
fn main(rt: HostRuntime) {
    let mut input = large_buffer();
    let n = read_full(0, &mut input);
    for line in input[..n].split_inclusive(|b| *b == b'\n') {
        let _ = run_line(&rt, line);
    }
}
