//! Tests of the decision core by its public calls alone: each rule, and what the clock, the triggers and
//! looks lead to on a core that begins a life. What a run of them leads to stands in the pages of `cases`.
#![tactic(auto)]

#[cfg(test)]
mod rules;
