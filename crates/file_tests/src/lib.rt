// Tests of day files over the public interface: each record read, each fault, and plays into outputs of any length.
#![tactic(auto)]

#[cfg(test)]
mod plays;
#[cfg(test)]
mod readings;
