//! One instruction at a time, or several in a straight line: its charged reduction, and the free ones of what it becomes.
#![tactic(auto)]

pub mod steps;
pub mod straight_line;
