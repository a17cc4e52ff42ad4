//! Tests of the resolver and of what is made of it alone, the inspector and what the programs share: answers that are
//! known by hand, over whole images and their companions, from the bytes of an image to the functions, lines and calls of
//! an address. No crate of the product stands on it.
#![tactic(auto)]

#[cfg(test)]
mod tests;
