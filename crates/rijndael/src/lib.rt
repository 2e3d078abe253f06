// No code: the definitions of FIPS 197, over the number of key words and rounds, are in specs/, what follows from them in proofs/. The code is in
// aes and the crates that it builds on.
#![tactic(auto)]
