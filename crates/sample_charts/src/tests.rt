//! Shapes, closure, differences and changes, over small charts.

mod changes;
mod differences;
mod faults;
mod shapes;
mod words;
