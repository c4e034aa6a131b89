// The table of fields: what stands where in each of the 23 messages of TotalView-ITCH 5.0.
// It holds no code: readers read fixed offsets, and are proved against the table.
#![tactic(auto)]
