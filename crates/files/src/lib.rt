// What the command reads and writes: its words, its messages, reels by windows, and the new reel that is made beside. Of the system nothing
// is known but what the kit's std says.
#![tactic(auto)]

pub mod again;
pub mod asked;
pub mod guide;
pub mod held;
pub mod input;
pub mod measure;
pub mod new;
pub mod progress;
pub mod same;
pub mod say;
pub mod streams;
pub mod told;
pub mod windows;
