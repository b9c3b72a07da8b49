// Games with another process in one place, in `proofs/`: in the grammar, and with no other cells than before.
// Where each experiment holds alike in both games, the next one keeps its chance. The laws stand in the
// crates above.
