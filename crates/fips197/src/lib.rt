// FIPS 197, the Advanced Encryption Standard (26 November 2001), for 128-bit keys, in specs/. No code.
#![tactic(auto)]
