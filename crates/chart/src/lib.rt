//! The picture of a run: which shapes the journal of a report gives, and their text as SVG.
#![tactic(auto)]

mod bodies;
mod captions;
mod drawing;
mod lifelines;
mod marks;
mod packets;
mod picture;
mod shapes;

pub use bodies::carried;
pub use drawing::draw;
pub use packets::arrows;
pub use picture::svg;
pub use shapes::{Arrow, Band, Carried, Drawing, End, Life, Logged, Note, Standing, Window};
