// The formatting of the input data (SP 800-38C, appendix A), for a nonce of 11 bytes and 32 bytes of associated data.
#![tactic(auto)]

ghost use Rattle.std.specs.Prelude.{◌≡◌, ◌∷◌};
ghost use Rattle.ccm_formatting.specs.Formatting.{associated};

// What the first block (A.2.1) and the counter blocks (A.3) begin with.
pub fn flags_and_nonce(flags: u8, nonce: [u8; 11]) -> [u8; 12]
    ensures { result ≡ flags ∷ nonce }
{
    let mut b = [0u8; 12];
    b[0] = flags;
    runs::copy(&mut b, 1, &nonce);
    b
}

// The associated data behind their length (A.2.2).
pub fn with_length(aad: [u8; 32]) -> [u8; 34]
    ensures { result ≡ associated aad }
{
    let mut b = [0u8; 34];
    b[1] = 32;
    runs::copy(&mut b, 2, &aad);
    b
}
