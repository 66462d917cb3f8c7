// Tests of the solver's calls over tables, files in place and piles of layers, with every kind of pick.
#![tactic(auto)]

#[cfg(test)]
mod desks;
#[cfg(test)]
mod example_tests;
#[cfg(test)]
mod examples;
#[cfg(test)]
mod list_tests;
#[cfg(test)]
mod pile_tests;
#[cfg(test)]
mod refusal_tests;
#[cfg(test)]
mod small_tests;
