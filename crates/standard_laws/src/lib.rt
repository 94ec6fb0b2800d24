// What the standard's text says of the check as it is defined in `cylinder`: a sum of at most 1 keeps each single ratio at most 1, and the
// curves jump at some of their limits. No code, and a crate of its own so that an edit of a definition need not prove it again.
#![tactic(auto)]
