// Laws that every layer needs: lists, big-endian fields, bits, least and sum over the numbers below a bound.
// It holds no code, and knows nothing of ITCH.
#![tactic(auto)]
