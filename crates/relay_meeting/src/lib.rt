//! A client's course and a server's dialogue on one connection, each of which has read a prefix of what the other
//! wrote. Laws only.
#![tactic(auto)]

pub mod laws;
