// No code: the definitions of FIPS 180-4 are in specs/, what follows from them in proofs/. The code is in sha_2_compression and sha_2_running.
#![tactic(auto)]
