// A ledger: a list of records sorted by stamp, and what the calls answer and leave on it. Mathematics, and no function.
#![tactic(auto)]
