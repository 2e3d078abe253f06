// The limits on lengths and on the counter (RULES 2: 3, 17, 19 and 23). Each is a function, so that a contract holds it to its definition.
#![tactic(auto)]

ghost use Rattle.std.specs.Prelude.{◌≡◌, ◌+◌, leb};
ghost use Rattle.protocol.specs.Connection.{longest_message, longest_material, last_counter};

// Numbers 3 and 23.
pub fn longest_message() -> usize
    ensures { result ≡ longest_message }
{
    8454144
}

// A message of this length does not pass the limit with so many bytes more: 3 or 23 is not given to a piece.
pub fn fits(length: u64, more: usize) -> bool
    ensures { result ≡ leb (length + more) longest_message }
{
    let longest = longest_message() as u64;
    length <= longest && more as u64 <= longest - length
}

// Number 19, of key material that cipher keys of 32 bytes come from.
pub fn longest_material() -> usize
    ensures { result ≡ longest_material }
{
    65536
}

// Number 17: 2^64 - 1.
pub fn last_counter() -> u64
    ensures { result ≡ last_counter }
{
    18446744073709551615
}
