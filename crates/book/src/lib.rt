// The book of live orders: who is eligible at a sale, what a sale, the timer and the close fill, and what is left.
#![tactic(auto)]

pub mod book;
pub mod book_orders;
pub mod book_passes;
mod cuts;
pub mod lawful;
pub mod order;
pub mod pass;
pub mod passes;
pub mod quote;
pub mod row;
pub mod sale;
mod settle;
