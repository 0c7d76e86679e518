// What the program `tray` means, with no reading and no writing: a line is a call, a call changes the trays, and the answer is a line.
#![tactic(auto)]

pub mod lines; // lines.rt: what a line says
pub mod acts; // acts.rt: what a call does to the four containers
pub mod answers; // answers.rt: what a line is answered
pub mod feeds; // feeds.rt: what bytes, fed in runs of any length, are answered
