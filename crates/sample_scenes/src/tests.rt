mod memory;
mod painting;
mod random;
mod shared;
