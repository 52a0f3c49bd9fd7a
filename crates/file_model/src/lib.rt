//! The model of grammar files and the theory about it: a text has one reading, and what is written is read back.

#![tactic(auto)]

pub mod fault;

ghost use Rattle.file_model.specs.Files.{UniqueReadings, WrittenIsReadBack};

// Every text has at most one reading.
pub fn readings_are_unique()
    ensures { UniqueReadings }
{}

// A sound spelled grammar is read back from its text.
pub fn written_is_read_back()
    ensures { WrittenIsReadBack }
{}
