//! What pictures of programs consist of: the views, the sheet, the strokes of a path, and the text
//! of all shapes as SVG.
#![tactic(auto)]

mod drawer;
mod eye;
mod helix;
mod look;
mod pen;
mod shape;
mod sheet;
mod spelling;
mod spot;
mod strokes;
mod tools;
mod view;

pub use drawer::draw_all;
pub use eye::Eye;
pub use look::Look;
pub use pen::{Pen, Run};
pub use shape::{BoxKind, Ink, Mark, Pane, Shape, Sheet};
pub use sheet::{Unit, frame, pane, sheet_of, unit_of};
pub use spot::{Block, Rectangle, Spot};
pub use strokes::{draw_action, draw_stroke, start_of};
pub use tools::{name_of, number_of, rank_of, used};
pub use view::{View, block, to_micrometres};
