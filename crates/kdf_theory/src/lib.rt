//! What a journal means: what is loaded of a job, which program is next, what is seen of each program while its
//! transfers are in flight, and which journals are legal and true. There is nothing to run here: Director and the
//! checker of reports stand on these definitions and their lemmas.
#![tactic(auto)]
