//! What the program prints, from the bytes in to the bytes out.
#![tactic(auto)]

#[cfg(test)]
mod tests;
