mod faults;
mod fields;
mod overlaps;
mod records;
mod small;
