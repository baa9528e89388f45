//! How long a text can be: the greatest length for each kind of key, and the proof that no text is longer. No code.
#![tactic(auto)]
