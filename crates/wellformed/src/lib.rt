// What a well-formed message holds, over the table of fields, and the refusal that it earns otherwise. It holds no code.
#![tactic(auto)]
