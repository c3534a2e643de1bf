//! A picture of a block's schedule, as an SVG: waves from left to right, a box for each position, lines for what waits for what.
#![tactic(auto)]

mod boxes;
mod drawing;
mod edge;
mod extent;
mod first;
mod gather;
mod head;
mod lines;
mod picture;
mod scene;
mod seat;
mod shown;
mod turns;
mod words;

pub use drawing::draw_block;
pub use edge::Edge;
pub use gather::{Edges, edges_of};
pub use picture::picture_of;
pub use scene::{MOST_BOXES, MOST_HOTTEST, MOST_LINES, MOST_LOCKS, Scene};
