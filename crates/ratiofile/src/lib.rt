// 2026-01, "Our own ratio table": the file of three lines. What is written and what is read is in specs/File.antt, both laws in specs/Laws.antt, worked
// examples in specs/Examples.antt. Here are the sizes; the crate `ratiofile_reader` reads a file.
#![tactic(auto)]

pub mod layout; // how many bytes a file has
