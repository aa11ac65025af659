//! Worked examples of definitions, each a lemma that the checker computes: tokens, the text and the order of values, packets,
//! lines of schedules and traces, patterns, queries, statements, steps, names, inlining, limits and types. They are no part of
//! the program.
#![tactic(auto)]
