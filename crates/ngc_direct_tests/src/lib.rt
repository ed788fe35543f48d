//! Tests that need code, of the program's commands: refused memory, the controller event by event, and
//! calls that no command line makes.
#![tactic(auto)]

#[cfg(test)]
mod checks;
#[cfg(test)]
mod controller;
#[cfg(test)]
mod given;
#[cfg(test)]
mod living;
#[cfg(test)]
mod memory;
