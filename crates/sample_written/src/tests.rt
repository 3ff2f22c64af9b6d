mod ends;
mod limits;
mod records;
mod trials;
mod whole;
