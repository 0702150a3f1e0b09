//! Tests of the program's top call, over stores, inputs and outputs in memory.
#![tactic(auto)]

#[cfg(test)]
mod commands;
#[cfg(test)]
mod created_tables;
#[cfg(test)]
mod printed_rows;
#[cfg(test)]
mod script_runs;
