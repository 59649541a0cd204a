// The row module: what answers are made of, and the records of a file (document 01, "Head record" and "Token record").

#![tactic(auto)]

pub mod answer;
pub mod bytes;
pub mod format;
pub mod head;
pub mod kinds;
pub mod languages;
pub mod row;
pub mod token;
pub mod word_numbers;
pub mod words;
