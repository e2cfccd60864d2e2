//! Tests of the server: its command over connections in memory, and the real acceptor over the network
//! of this machine, with clients that are plain sockets.
#![tactic(auto)]

#[cfg(test)]
mod tests;
