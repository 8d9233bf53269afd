// A line and the command that it says: read back from print, and readable only if printed. Theorems only, no code.
#![tactic(auto)]
