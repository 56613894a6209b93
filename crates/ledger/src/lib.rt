// What an indexer of a book knows besides its text and its matcher: terms, pages, owed units and marks.
#![tactic(auto)]

pub mod book;
pub mod change;
pub mod debts;
pub mod marks;
pub mod page_table;
pub mod pages;
pub mod row;
pub mod terms;
pub mod unit;
mod words;
