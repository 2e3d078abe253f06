// Signing and verifying a message in clear as it arrives, piece by piece, under one given key (RULES 15; MS-SMB2 3.1.4.1 and 3.1.5.1).
#![tactic(auto)]

mod header;

ghost use Rattle.std.specs.Prelude.{◌≡◌, ◌+◌, ◌≤◌, ◌<◌, length};
ghost use Rattle.aes.specs.BlockCipher.{expanded_key};
ghost use Rattle.protocol.specs.Connection.{longest_message};
ghost use Rattle.answer.specs.Reading.{number_in};
ghost use Rattle.signing_pieces.specs.Running.{in_header, behind_header, joined_else, signature_from, no_message, step_with};
ghost use Rattle.signing_pieces.specs.Clauses.{begin_step, piece_step, sign_number, sign_place, verify_number, Signs};

use aes::Cipher;
use answer::{Refusal, refuse};
use arrays::bytes_at;
use cmac::Mac;
use header::{covered, filled};

// struct smb3seal_sign_state, a message under way: any bytes are a state. The first 64 joined bytes are kept as they came, since the flag
// and the signature may be cut anywhere; the code takes them in once they are all there. No message is under way where `begun` is 0.
#[repr(C)]
#[derive(Clone, Copy)]
pub struct SignState {
    key: [u8; 16],
    header: [u8; 64],
    code: Mac,
    length: u64,
    begun: u64,
}

// struct smb3seal_sign_step: the state handed back, and the number of RULES 2.
#[repr(C)]
#[derive(Clone, Copy)]
pub struct SignStep {
    pub state: SignState,
    pub number: u32,
    pub spare: u32,
}

// No message under way.
fn ended() -> SignState
    ensures { result ≡ no_message }
{
    SignState {
        key: [0u8; 16],
        header: [0u8; 64],
        code: Mac::new(),
        length: 0,
        begun: 0,
    }
}

// What every call hands back.
fn step(state: SignState, judged: Result<(), Refusal>) -> SignStep
    ensures { result ≡ step_with state (number_in judged) }
{
    SignStep {
        state,
        number: answer::number(judged),
        spare: 0,
    }
}

// A message begins under the key: 40.
pub fn begin(key: &[u8]) -> SignStep
    ensures { result ≡ begin_step key.now }
{
    if key.len() != 16 {
        return step(ended(), Err(Refusal::BadLength));
    }
    let state = SignState {
        key: bytes_at(key, 0),
        begun: 1,
        ..ended()
    };
    step(state, Ok(()))
}

impl SignState {
    // The cipher under the message's key.
    #[inline(always)]
    fn cipher(self) -> Cipher
        ensures { result ≡ expanded_key self.key }
    {
        Cipher::new(&self.key)
    }

    // The piece goes in behind the header.
    fn behind_header(self, piece: &[u8]) -> SignState
        requires { (64 ≤ self.length) × (self.length + length piece.now ≤ longest_message) }
        ensures { result ≡ behind_header self piece.now }
    {
        SignState {
            code: self.code.update(&self.cipher(), piece),
            length: self.length + piece.len() as u64,
            ..self
        }
    }

    // The piece goes into the header, which it may fill, and the rest of it behind.
    fn into_header(self, piece: &[u8]) -> SignState
        requires { (self.length < 64) × (self.length + length piece.now ≤ longest_message) }
        ensures { result ≡ in_header self piece.now }
    {
        let at = self.length as usize;
        let room = 64 - at;
        let length = self.length + piece.len() as u64;
        if piece.len() < room {
            return SignState {
                header: filled(self.header, at, piece),
                length,
                ..self
            };
        }
        let cipher = self.cipher();
        let whole = filled(self.header, at, &piece[..room]);
        let code = Mac::new().update(&cipher, &covered(whole));
        SignState {
            header: whole,
            code: code.update(&cipher, &piece[room..]),
            length,
            ..self
        }
    }

    // The piece follows what is joined, wherever the cut falls: 3. Refused, the state stays as it is.
    pub fn piece(self, piece: &[u8]) -> SignStep
        ensures { result ≡ piece_step self piece.now }
    {
        let takes = (self.begun != 0) & connection::fits(self.length, piece.len());
        if !takes {
            return step(self, Err(Refusal::TooLong));
        }
        if self.length < 64 {
            return step(self.into_header(piece), Ok(()));
        }
        step(self.behind_header(piece), Ok(()))
    }

    // 11, 12.
    fn joined_tests(self) -> Result<(), Refusal>
        ensures { number_in result ≡ joined_else self 0 }
    {
        refuse(
            (self.begun == 0) | (self.length < 64),
            Refusal::InnerTooShort,
        )?;
        refuse(
            !protocol_id::begins(&self.header, 0, 0xFE),
            Refusal::NotHeader,
        )
    }

    // The signature of the joined bytes, with the flag as set.
    fn signature(self) -> [u8; 16]
        ensures { result ≡ signature_from self }
    {
        self.code.finish(&self.cipher())
    }

    // Writes the signature of the joined bytes: 40, 11, 12.
    fn signed(self, signature: &mut [u8]) -> Result<(), Refusal>
        ensures { (number_in result ≡ sign_number self signature.old) × (signature.new ≡ sign_place self signature.old) }
    {
        refuse(signature.len() != 16, Refusal::BadLength)?;
        self.joined_tests()?;
        signature.copy_from_slice(&self.signature());
        Ok(())
    }

    // Verifies the joined bytes: 11, 12, 24, 25.
    fn verified(self) -> Result<(), Refusal>
        ensures { number_in result ≡ verify_number self }
    {
        self.joined_tests()?;
        refuse(!signing::is_signed(&self.header), Refusal::NotSigned)?;
        let right = compare::same_16(bytes_at(&self.header, 48), self.signature());
        refuse(!right, Refusal::BadSignature)
    }

    // The message ends, and its signature is written.
    pub fn sign(self, signature: &mut [u8]) -> SignStep
        ensures { Signs self signature.old result signature.new }
    {
        let judged = self.signed(signature);
        step(ended(), judged)
    }

    // The message ends, and is verified.
    pub fn verify(self) -> SignStep
        ensures { result ≡ step_with no_message (verify_number self) }
    {
        step(ended(), self.verified())
    }
}
