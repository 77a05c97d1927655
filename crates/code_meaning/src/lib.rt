//! What lowered code means: the events and the value of its evaluation, the reading of its template
//! bytes, and the writes that a value stands for. It speaks of trees alone, and knows no arena.
#![tactic(auto)]
