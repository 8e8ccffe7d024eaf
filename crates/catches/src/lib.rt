// What the packet error code catches: any change within eight consecutive bits, any two bits of a message of up to 15 bytes, and of 16 all
// pairs but one. No code. Rests on pec.
#![tactic(auto)]
