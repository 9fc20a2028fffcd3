//! Tests of links over TCP, by public calls alone, against servers and clients on ports of 127.0.0.1:
//! what goes over them, what they answer where a server refuses or doesn't read, a whole delivery, and
//! clients at a door. They say what no contract says, since no contract knows what the system does.
#![tactic(auto)]

#[cfg(test)]
mod deliveries;
#[cfg(test)]
mod doors;
#[cfg(test)]
mod links;
#[cfg(test)]
mod servers;
