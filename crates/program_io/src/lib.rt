// What the programs share around their one proved call: arguments, files, standard input and standard output.
//
// The last text of a program comes on standard input, those before it come from files that arguments name. Where anything fails, one
// line on standard error names the argument, file or stream and the reason (`report`). What is read and written no contract can say;
// what is concluded from the numbers that were answered is an equation.
#![tactic(auto)]

pub mod arguments;
pub mod descriptor;
pub mod streams;
