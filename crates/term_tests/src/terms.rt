//! The public calls of terms, and of what they are made of, with ample memory; what is expected was worked out by hand.
mod bytes;
mod faults;
mod limits;
mod making;
mod symbols;
