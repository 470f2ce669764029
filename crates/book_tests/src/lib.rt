// Tests of the book: the examples of the Rule's own release, the readings that are wrong, and the book's own limits.
#![tactic(auto)]

#[cfg(test)]
mod books;
#[cfg(test)]
mod making;
#[cfg(test)]
mod readings;
#[cfg(test)]
mod release;
