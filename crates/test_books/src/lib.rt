//! Tests of books: what their seats are told, by turns, in threads and beside a locked shard, and how they end; and of slots
//! by themselves.
#![tactic(auto)]

#[cfg(test)]
mod books;
#[cfg(test)]
mod slots;
