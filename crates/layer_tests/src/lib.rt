// Tests of registers and books, and of layers over them: what any register must read as, what any book
// must do when it is written, and the layers on worked examples.
#![tactic(auto)]

#[cfg(test)]
mod books;
#[cfg(test)]
mod junction_tests;
#[cfg(test)]
mod pile_tests;
