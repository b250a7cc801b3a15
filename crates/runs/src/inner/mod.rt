// Functions generic in the width, which ask something of their callers.
pub mod edges;
pub mod seqs;
pub mod whole;
pub mod writes;
