// Examples, run: what is told of texts, the six operations, and journals. Expected values are worked out from the rules.
#![tactic(auto)]

#[cfg(test)]
mod journals;
#[cfg(test)]
mod operations;
#[cfg(test)]
mod texts;
