//! Tests of texts: times, tokens and lines, and a child's words and its output. There is no
//! code here, only tests.
#![tactic(auto)]

#[cfg(test)]
mod answers;
#[cfg(test)]
mod checks;
#[cfg(test)]
mod children;
#[cfg(test)]
mod parts;
#[cfg(test)]
mod texts;
