// Images: a hall saved as a drawable's system section. Each function that puts a part of it asks that the part ends in the buffer and below the limit of a
// section (`Room`): a struct of buffer and place that knew it would be taken apart for each part, which begins at a place of its own.
#![tactic(auto)]

mod blocks;
mod geometry;
mod indices;
mod items;
mod model;
mod parts;
mod saving;

pub use saving::save;
