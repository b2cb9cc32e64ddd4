//! Examples of every layer, as tests: there is nothing here for a program to call.
#![tactic(auto)]

#[cfg(test)]
mod consoles;
#[cfg(test)]
mod headers;
#[cfg(test)]
mod packets;
#[cfg(test)]
mod policies;
