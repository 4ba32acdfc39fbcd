// The machine record of the EEN421 teaching computer: its registers, flags, waiting keys and tray.
#![tactic(auto)]

pub mod machine;
pub mod pdbr;
pub mod queue;
pub mod state;
