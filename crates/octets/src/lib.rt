// No code: byte strings as numbers, xored, compared and in blocks are defined in specs/, and their laws are in proofs/.
// The code is in big_endian, little_endian, runs, blocks, arrays and compare.
#![tactic(auto)]
