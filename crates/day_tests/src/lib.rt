// Tests of the day: every refusal of every call, whole days above each ledger, and the day's own limits.
#![tactic(auto)]

#[cfg(test)]
mod asked;
#[cfg(test)]
mod days;
#[cfg(test)]
mod refusals;
